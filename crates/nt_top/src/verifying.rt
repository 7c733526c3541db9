//! What `verify` writes: the commands of a script that are refused in every run that reaches them.
ghost use Rattle.std.specs.Prelude.{◌≡◌, ◌++◌, ◌∷◌, [], All, IfOk, OnOk, codes, decimal};
ghost use Rattle.std.specs.List.{flat_map};
ghost use Rattle.nt_event.specs.Numbered.{refusal_name, refusal_number};
ghost use Rattle.nt_script.specs.Sound.{IsSound};
ghost use Rattle.nt_top.specs.Verified.{IsNamed, clean_line, finding_line, found_text};
ghost use Rattle.nt_top.specs.Verified.{order_line, site_text, verify_text};

use nt_event::{CpuNo, Level, Refusal};
use nt_script::{Input, Names};
use nt_text::put_digits;
use nt_verify::{Finding, Site, ordered, verify};
use std::alloc::{AllocError, Global};

/// Adds a word and a name.
#[inline(always)]
fn put_named(out: &mut Vec<u8>, word: &[u8], name: &str) -> Result<(), AllocError>
    ensures { OnOk result (out.new.items ≡ out.old.items ++ (word.now ++ name.now)) }
{
    out.extend_from_slice(word)?;
    out.extend_from_slice(name.as_bytes())?;
    Ok(())
}

/// Adds the routine of an interrupt, by its processor and level.
fn put_isr(out: &mut Vec<u8>, cpu: CpuNo, level: Level) -> Result<(), AllocError>
    ensures { OnOk result
        (out.new.items ≡ out.old.items ++ (codes "isr " ++ (decimal cpu.0 ++ 32 ∷ decimal level))) }
{
    out.extend_from_slice(b"isr ")?;
    put_digits(out, u64::from(cpu.0))?;
    out.push(b' ')?;
    put_digits(out, u64::from(level.number()))
}

/// Adds a site as it is written.
fn put_site(out: &mut Vec<u8>, names: &Names, site: Site) -> Result<(), AllocError>
    requires { IsNamed names.now site }
    ensures { OnOk result (out.new.items ≡ out.old.items ++ site_text names.now site) }
{
    match site {
        Site::Isr(cpu, level) => put_isr(out, cpu, level),
        Site::Dpc(dpc) => put_named(out, b"dpc ", names.dpc(dpc)),
        Site::Threaded(dpc) => put_named(out, b"threaded ", names.dpc(dpc)),
        Site::Kernel(apc) => put_named(out, b"kernel ", names.apc(apc)),
        Site::Normal(apc) => put_named(out, b"normal ", names.apc(apc)),
        Site::Rundown(apc) => put_named(out, b"rundown ", names.apc(apc)),
        Site::Base(thread) => put_named(out, b"base ", names.thread(thread)),
    }
}

/// Adds the number and the name of a refusal, and ends the line.
fn put_refusal(out: &mut Vec<u8>, refusal: Refusal) -> Result<(), AllocError>
    ensures { OnOk result (out.new.items ≡ out.old.items
        ++ (decimal (refusal_number refusal) ++ 32 ∷ (refusal_name refusal ++ 10 ∷ []))) }
{
    put_digits(out, u64::from(refusal.number()))?;
    out.push(b' ')?;
    out.extend_from_slice(refusal.name().as_bytes())?;
    out.push(b'\n')?;
    Ok(())
}

/// Adds the line of a finding.
fn put_finding(out: &mut Vec<u8>, names: &Names, finding: &Finding) -> Result<(), AllocError>
    requires { IsNamed names.now finding.now.site }
    ensures { OnOk result
        (out.new.items ≡ out.old.items ++ finding_line names.now finding.now) }
{
    put_site(out, names, finding.site)?;
    out.push(b' ')?;
    put_digits(out, u64::from(finding.place))?;
    out.extend_from_slice(b" level ")?;
    put_digits(out, u64::from(finding.level.number()))?;
    out.extend_from_slice(b": ")?;
    put_refusal(out, finding.refusal)
}

/// Adds the line of each finding.
fn put_findings(out: &mut Vec<u8>, names: &Names, findings: &[Finding]) -> Result<(), AllocError>
    requires { All (λ f. IsNamed names.now f.site) findings.now }
    ensures { OnOk result
        (out.new.items ≡ out.old.items ++ flat_map (finding_line names.now) findings.now) }
{
    for finding in findings {
        put_finding(out, names, finding)?;
    }
    Ok(())
}

/// The line that nothing is found, if that is so.
fn clean_line(findings: &[Finding]) -> &'static str
    ensures { result.now ≡ clean_line findings.now }
{
    match findings {
        [] => "clean\n",
        _ => "",
    }
}

/// The line that says whether locks are acquired in rising order.
fn order_line(is_ordered: bool) -> &'static str
    ensures { result.now ≡ order_line is_ordered }
{
    if is_ordered {
        "locks ordered\n"
    } else {
        "locks unordered\n"
    }
}

/// The lines of the findings, or the one that there is none.
fn found_text(alloc: Global, names: &Names, findings: &[Finding]) -> Result<Vec<u8>, AllocError>
    requires { All (λ f. IsNamed names.now f.site) findings.now }
    ensures { IfOk result (λ text. text.items ≡ found_text names.now findings.now) }
{
    let mut out = clean_line(findings).as_bytes().to_vec(alloc)?;
    put_findings(&mut out, names, findings)?;
    Ok(out)
}

/// What `verify` writes of a script.
pub(crate) fn verify_text(alloc: Global, input: &Input) -> Result<Vec<u8>, AllocError>
    requires { IsSound input.now }
    ensures { IfOk result (λ text. text.items ≡ verify_text input.now) }
{
    let findings = verify(alloc, &input.script)?;
    let mut text = found_text(alloc, &input.names, findings.as_slice())?;
    text.extend_from_slice(order_line(ordered(&input.script)).as_bytes())?;
    Ok(text)
}
