//! The commands of the load, drawn.
ghost use Rattle.std.specs.Prelude.{◌≡◌, ℕ, ◌+◌, ◌<◌, ◌++◌, ◌∷◌, [], get_or};
ghost use Rattle.std.specs.Vec.{vec_capacity, vec_len};
ghost use Rattle.nt_event.specs.Numbers.{apc, cpu, dpc, timer};
ghost use Rattle.nt_load.specs.Draws.{after, draw};
ghost use Rattle.nt_load.specs.Commands.{command_of, draw_count, field_count, importance};
ghost use Rattle.nt_load.specs.Commands.{importances, row_at, rows};
ghost use Rattle.nt_load.specs.declared.commands.Row.TheVariants as row;

use crate::draws::Draws;
use nt_event::{ApcNo, Command, CpuNo, DpcNo, Importance, Level, TimerNo};

/// A row of the table that commands are drawn from.
#[derive(Clone, Copy, PartialEq, Eq, Debug)]
pub enum Row {
    Raise,
    Lower,
    Queue,
    Unqueue,
    SetImportance,
    SetTarget,
    SetTimer,
    Clock,
    InsertSpecial,
    InsertNormal,
    InsertUser,
    EnterCrit,
    LeaveCrit,
    Interrupt,
    ToUser,
}

/// The row that a value below sixteen chooses; two choose `queue`.
#[inline(always)]
#[tactic(auto, unfolding(crate::specs::Commands::rows))]
fn row_of(value: u32) -> Row
    requires { value < 16 }
    ensures { result ≡ get_or rows value row.ToUser }
{
    match value {
        0 => Row::Raise,
        1 => Row::Lower,
        2 | 3 => Row::Queue,
        4 => Row::Unqueue,
        5 => Row::SetImportance,
        6 => Row::SetTarget,
        7 => Row::SetTimer,
        8 => Row::Clock,
        9 => Row::InsertSpecial,
        10 => Row::InsertNormal,
        11 => Row::InsertUser,
        12 => Row::EnterCrit,
        13 => Row::LeaveCrit,
        14 => Row::Interrupt,
        15 => Row::ToUser,
        _ => unreachable!(),
    }
}

/// The importances that a value below four chooses.
static IMPORTANCES: [Importance; 4] = [
    Importance::Low,
    Importance::Medium,
    Importance::MediumHigh,
    Importance::High,
];

/// The level that the load's interrupt routines are for.
pub(crate) fn device_level() -> Level
    ensures { result ≡ 5 }
{
    match Level::new(5) {
        Some(level) => level,
        None => unreachable!(),
    }
}

/// Draws a DPC object.
fn draw_dpc(draws: &mut Draws) -> DpcNo
    ensures value { result ≡ dpc (draw 0 32 draws.old.number) }
    ensures moved { draws.new.number ≡ after 1 draws.old.number }
{
    DpcNo(draws.draw(32) as u16)
}

/// Draws a processor.
fn draw_cpu(draws: &mut Draws) -> CpuNo
    ensures value { result ≡ cpu (draw 0 4 draws.old.number) }
    ensures moved { draws.new.number ≡ after 1 draws.old.number }
{
    CpuNo(draws.draw(4) as u8)
}

/// Draws a timer.
fn draw_timer(draws: &mut Draws) -> TimerNo
    ensures value { result ≡ timer (draw 0 8 draws.old.number) }
    ensures moved { draws.new.number ≡ after 1 draws.old.number }
{
    TimerNo(draws.draw(8) as u16)
}

/// Draws an importance.
#[tactic(auto, unfolding(crate::specs::Commands::importances))]
fn draw_importance(draws: &mut Draws) -> Importance
    ensures value { result ≡ importance (draw 0 4 draws.old.number) }
    ensures moved { draws.new.number ≡ after 1 draws.old.number }
{
    IMPORTANCES[draws.draw(4) as usize]
}

/// Draws an APC object of a kind, whose first one is `first`.
fn draw_apc(draws: &mut Draws, first: u16) -> ApcNo
    requires { first < 256 }
    ensures value { result ≡ apc (first + draw 0 32 draws.old.number) }
    ensures moved { draws.new.number ≡ after 1 draws.old.number }
{
    ApcNo(first + draws.draw(32) as u16)
}

/// Draws a row.
fn draw_row(draws: &mut Draws) -> Row
    ensures value { result ≡ row_at draws.old.number }
    ensures moved { draws.new.number ≡ after 1 draws.old.number }
{
    row_of(draws.draw(16))
}

/// Draws the fields of a row from left to right, and adds the command. The row was drawn from the
/// number `start`. Each row writes its command where it is kept.
#[inline(always)]
#[tactic(auto, unfolding(crate::specs::Draws::after))]
fn add_fields(row: Row, draws: &mut Draws, out: &mut Vec<Command>)
    requires { vec_len out.old < vec_capacity out.old }
    ensures items { (start : ℕ) → draws.old.number ≡ after 1 start →
        out.new.items ≡ out.old.items ++ command_of row start ∷ [] }
    ensures len { vec_len out.new ≡ vec_len out.old + 1 }
    ensures capacity { vec_capacity out.new ≡ vec_capacity out.old }
    ensures moved { draws.new.number ≡ after (field_count row) draws.old.number }
{
    match row {
        Row::Raise => out.push_reserved(Command::Raise(Level::DISPATCH)),
        Row::Lower => out.push_reserved(Command::Lower(Level::PASSIVE)),
        Row::Queue => out.push_reserved(Command::Queue(draw_dpc(draws))),
        Row::Unqueue => out.push_reserved(Command::Unqueue(draw_dpc(draws))),
        Row::SetImportance => out.push_reserved(Command::SetImportance(
            draw_dpc(draws),
            draw_importance(draws),
        )),
        Row::SetTarget => out.push_reserved(Command::SetTarget(
            draw_dpc(draws),
            Some(draw_cpu(draws)),
        )),
        Row::SetTimer => out.push_reserved(Command::SetTimer(draw_timer(draws), draws.draw(16), 0)),
        Row::Clock => out.push_reserved(Command::Clock(1)),
        Row::InsertSpecial => out.push_reserved(Command::InsertApc(draw_apc(draws, 0))),
        Row::InsertNormal => out.push_reserved(Command::InsertApc(draw_apc(draws, 32))),
        Row::InsertUser => out.push_reserved(Command::InsertApc(draw_apc(draws, 64))),
        Row::EnterCrit => out.push_reserved(Command::EnterCrit),
        Row::LeaveCrit => out.push_reserved(Command::LeaveCrit),
        Row::Interrupt => out.push_reserved(Command::Interrupt(draw_cpu(draws), device_level())),
        Row::ToUser => out.push_reserved(Command::ToUser),
    }
}

/// Draws a command and adds it: its row, then its fields from left to right.
#[inline(always)]
pub fn add_command(draws: &mut Draws, out: &mut Vec<Command>)
    requires { vec_len out.old < vec_capacity out.old }
    ensures items { out.new.items
        ≡ out.old.items ++ command_of (row_at draws.old.number) draws.old.number ∷ [] }
    ensures len { vec_len out.new ≡ vec_len out.old + 1 }
    ensures capacity { vec_capacity out.new ≡ vec_capacity out.old }
    ensures moved { draws.new.number ≡ after (draw_count draws.old.number) draws.old.number }
{
    let row = draw_row(draws);
    add_fields(row, draws, out)
}
