//! Uses of routines.
ghost use Rattle.std.specs.Prelude.{◌≡◌, ◌<◌, ◌≤◌, ◌++◌, ◌^◌, IfOk, IsTrue, OnOk, length, map};
ghost use Rattle.std.specs.Prelude.{slice_get};
ghost use Rattle.std.specs.List.{flat_map};
ghost use Rattle.nt_event.specs.Lists.{table};
ghost use Rattle.nt_event.specs.Numbers.{apc as apc_no};
ghost use Rattle.nt_event.specs.Routines.{commands_of as commands_of_routine};
ghost use Rattle.nt_event.specs.Script.{fits};
ghost use Rattle.nt_verify.specs.Sites as spec;

use nt_event::{ApcNo, Body, Command, CpuNo, DpcNo, Level, RoutineNo, Script, ThreadNo};
use std::alloc::{AllocError, Global};

/// One use of a routine: what its frame runs, and in which phase.
#[derive(Clone, Copy, PartialEq, Eq, Debug)]
pub enum Site {
    /// The routine of the interrupt of this level on this processor.
    Isr(CpuNo, Level),
    /// The routine of a DPC object at DISPATCH_LEVEL.
    Dpc(DpcNo),
    /// The routine of a threaded DPC at PASSIVE_LEVEL.
    Threaded(DpcNo),
    /// The kernel routine of an APC object.
    Kernel(ApcNo),
    /// The normal routine of an APC object.
    Normal(ApcNo),
    /// The rundown routine of an APC object.
    Rundown(ApcNo),
    /// The base routine of a thread.
    Base(ThreadNo),
}

impl Site {
    /// What runs in a frame of the site.
    pub(crate) fn body(&self, script: &Script) -> Body
        ensures { result ≡ spec.body_at script.now self.now }
    {
        match self {
            Site::Isr(_, level) => Body::Int(*level),
            Site::Dpc(dpc) => Body::Dpc(*dpc),
            Site::Threaded(dpc) => Body::Threaded(*dpc),
            Site::Kernel(apc) | Site::Normal(apc) => Body::Apc(*apc, script.kind_of(*apc)),
            Site::Rundown(apc) => Body::Rundown(*apc),
            Site::Base(thread) => Body::Base(*thread),
        }
    }

    /// Whether it is an APC's kernel routine.
    pub(crate) fn is_kernel(&self) -> bool
        ensures { result ≡ spec.is_kernel self.now }
    {
        matches!(self, Site::Kernel(_))
    }

    /// The processor of an interrupt routine; each other routine is the same on every processor.
    fn cpu(&self) -> CpuNo
        ensures { result ≡ spec.cpu_at self.now }
    {
        match self {
            Site::Isr(cpu, _) => *cpu,
            Site::Dpc(_)
            | Site::Threaded(_)
            | Site::Kernel(_)
            | Site::Normal(_)
            | Site::Rundown(_)
            | Site::Base(_) => CpuNo(0),
        }
    }

    /// The command at this place of its routine; None where the routine has no more.
    pub(crate) fn command_at(&self, script: &Script, place: u32) -> Option<Command>
        ensures { result ≡ slice_get (spec.commands_at script.now self.now) place }
    {
        let body = self.body(script);
        script.command_at(self.cpu(), &body, self.is_kernel(), place)
    }

    /// The commands of its routine; none where the script declares no such use.
    pub(crate) fn commands<'a>(&self, script: &'a Script) -> &'a [Command]
        ensures { result.now ≡ spec.commands_at script.now self.now }
    {
        let body = self.body(script);
        commands_of(
            script,
            script.routine_of(self.cpu(), &body, self.is_kernel()),
        )
    }
}

/// The commands of a routine; none where there is no such routine.
fn commands_of(script: &Script, routine: Option<RoutineNo>) -> &[Command]
    ensures { result.now ≡ commands_of_routine script.now routine }
{
    match routine {
        Some(routine) => match script.routines.as_slice().get(routine.0 as usize) {
            Some(routine) => routine.commands.as_slice(),
            None => &[],
        },
        None => &[],
    }
}

/// How many DPC objects there are.
pub(crate) fn dpc_count(script: &Script) -> u16
    requires { IsTrue (fits script.now) }
    ensures { result ≡ length script.now.dpcs }
{
    script.dpcs.len() as u16
}

/// How many threads there are.
pub(crate) fn thread_count(script: &Script) -> u16
    requires { IsTrue (fits script.now) }
    ensures { result ≡ length script.now.threads }
{
    script.threads.len() as u16
}

/// How many APC objects there are.
pub(crate) fn apc_count(script: &Script) -> u16
    requires { IsTrue (fits script.now) }
    ensures { result ≡ length script.now.apcs }
{
    script.apcs.len() as u16
}

/// The use of a DPC object's routine.
pub(crate) fn dpc_site(script: &Script, dpc: DpcNo) -> Site
    ensures { result ≡ spec.dpc_site script.now dpc }
{
    if script.is_threaded(dpc) {
        Site::Threaded(dpc)
    } else {
        Site::Dpc(dpc)
    }
}

/// Whether an APC object has a normal routine.
pub(crate) fn has_normal(script: &Script, apc: ApcNo) -> bool
    ensures { result ≡ spec.has_normal script.now apc }
{
    let Some(decl) = script.apcs.as_slice().get(apc.0 as usize) else {
        return false;
    };
    decl.normal.is_some()
}

/// Each use of a routine that the script declares: its interrupt routines in the order of their
/// lines, its DPC objects, its threads, and then for each APC object its kernel, normal and rundown
/// routines where it has them. With threaded DPCs off every DPC object is an ordinary one.
///
/// Where no memory is found, it returns the error.
pub fn sites(alloc: Global, script: &Script) -> Result<Vec<Site>, AllocError>
    requires { IsTrue (fits script.now) }
    ensures { IfOk result (λ sites. sites.items ≡ spec.sites script.now) }
{
    let mut sites = Vec::new(alloc);
    add_isrs(&mut sites, script)?;
    add_dpcs(&mut sites, script)?;
    add_threads(&mut sites, script)?;
    add_apcs(&mut sites, script)?;
    Ok(sites)
}

fn add_isrs(sites: &mut Vec<Site>, script: &Script) -> Result<(), AllocError>
    ensures { OnOk result (sites.new.items ≡ sites.old.items ++ map spec.isr_site script.now.isrs) }
{
    let isrs = script.isrs.as_slice();
    for isr in isrs {
        sites.push(Site::Isr(isr.cpu, isr.level))?;
    }
    Ok(())
}

fn add_dpcs(sites: &mut Vec<Site>, script: &Script) -> Result<(), AllocError>
    requires { IsTrue (fits script.now) }
    ensures { OnOk result (sites.new.items ≡ sites.old.items ++ spec.dpc_sites script.now) }
{
    for d in 0..dpc_count(script) {
        sites.push(dpc_site(script, DpcNo(d)))?;
    }
    Ok(())
}

fn add_threads(sites: &mut Vec<Site>, script: &Script) -> Result<(), AllocError>
    requires { IsTrue (fits script.now) }
    ensures { OnOk result (sites.new.items ≡ sites.old.items ++ spec.thread_sites script.now) }
{
    for t in 0..thread_count(script) {
        sites.push(Site::Base(ThreadNo(t)))?;
    }
    Ok(())
}

fn add_apcs(sites: &mut Vec<Site>, script: &Script) -> Result<(), AllocError>
    requires { IsTrue (fits script.now) }
    ensures { OnOk result (sites.new.items ≡ sites.old.items ++
        flat_map (spec.apc_sites script.now) (table (length script.now.apcs) apc_no)) }
{
    for a in 0..apc_count(script) {
        add_apc(sites, script, ApcNo(a))?;
    }
    Ok(())
}

fn add_apc(sites: &mut Vec<Site>, script: &Script, apc: ApcNo) -> Result<(), AllocError>
    ensures { OnOk result (sites.new.items ≡ sites.old.items ++ spec.apc_sites script.now apc) }
{
    sites.push(Site::Kernel(apc))?;
    if has_normal(script, apc) {
        sites.push(Site::Normal(apc))?;
    }
    if script.rundown_of(apc).is_some() {
        sites.push(Site::Rundown(apc))?;
    }
    Ok(())
}
