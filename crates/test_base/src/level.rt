use nt_level::Level;

#[test]
fn each_number_has_its_level(rt: HostRuntime) {
    let names = [
        "PASSIVE", "APC", "DISPATCH", "DEVICE", "DEVICE", "DEVICE", "DEVICE", "DEVICE", "DEVICE",
        "DEVICE", "DEVICE", "DEVICE", "SYNCH", "CLOCK", "IPI", "HIGH",
    ];
    for (number, name) in (0u8..).zip(names.iter()) {
        let level = Level::new(number).expect(&rt, "a level");
        assert_eq!(rt; level.number(), number);
        assert_eq!(rt; level.name(), *name, "the name of {number}");
        assert_eq!(rt;
            level.is_device(),
            *name == "DEVICE",
            "whether {number} is a device's"
        );
    }
    assert!(rt; Level::new(16).is_none());
}

#[test]
fn only_a_higher_request_is_allowed(rt: HostRuntime) {
    assert!(rt; Level::DISPATCH.allows(Level::CLOCK));
    assert!(rt; !Level::CLOCK.allows(Level::CLOCK));
    assert!(rt; !Level::HIGH.allows(Level::IPI));
    assert!(rt;
        Level::PASSIVE.allows(Level::APC)
            && Level::APC.allows(Level::DISPATCH)
            && Level::DISPATCH.allows(Level::SYNCH)
    );
}
