//! Processors that are cut or spin still.
ghost use Rattle.std.specs.Prelude.{◌≡◌};
ghost use Rattle.nt_left.specs.Items.{cpu_item, cut_item, innermost_name};

use crate::causes::is_cut;
use crate::kinds::Left;
use nt_cpu::Cpu;
use nt_event::CpuNo;
use nt_frame::Frames;

/// The number of the event that began the innermost frame.
fn innermost_name(frames: &Frames) -> Option<u64>
    ensures { result ≡ innermost_name frames.now }
{
    match frames.innermost() {
        Some(view) => Some(view.frame),
        None => None,
    }
}

/// What a processor leaves that is cut.
fn cut(cpu: CpuNo, frames: &Frames) -> Left
    ensures { result ≡ cut_item cpu frames.now }
{
    Left::Cut {
        cpu,
        thread: frames.running(),
        level: frames.level(),
        frame: innermost_name(frames),
    }
}

/// What a processor of this number leaves, where it is cut or spins still.
pub(crate) fn cpu_left(limit: u32, number: CpuNo, cpu: &Cpu) -> Option<Left>
    ensures { result ≡ cpu_item limit number cpu.now.own }
{
    if is_cut(limit, cpu) {
        return Some(cut(number, cpu.frames()));
    }
    if !cpu.spins_still() {
        return None;
    }
    let lock = cpu.frames().spinning()?;
    Some(Left::Spins { cpu: number, lock })
}
