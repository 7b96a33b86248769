// The ERROR that a subcommand draws.
ghost use Rattle.std.specs.Prelude.{◌≡◌, ◌+◌, if◌then◌else◌};
ghost use Rattle.telnet.specs.Reader.{verb_code};
ghost use Rattle.telnet.specs.declared.Verb.TheVariants.{Will, Dont};
ghost use Rattle.screen.specs.Cells.{cell_of};
ghost use Rattle.words.specs.Words.{between};
ghost use Rattle.rules.specs.Command.{format_count, value_fault, fault_of};
ghost use Rattle.command.specs.Frame.{seen};

use crate::character::is_printable;
use crate::facility::is_agreed;
use crate::frame::cursor_cell;
use crate::held::{first_parameter, format_count, place_parameters, second_parameter};
use rules::{Code, Command, Fault, Frame, Held};
use screen::cell::on_screen;
use telnet::code::{DONT, WILL};

// No ERROR where the test is passed.
fn unless(passed: bool, fault: Fault) -> Result<(), Fault>
    ensures { result ≡ (if passed then Ok tt else Err fault) }
{
    if passed { Ok(()) } else { Err(fault) }
}

// The cell after the last one that FORMAT DATA formats: it starts at the cursor.
#[tactic(auto, using(screen::proofs::CellLaws::byte_product))]
pub fn format_end(frame: Frame, held: Held) -> usize
    ensures { result ≡ cell_of frame.width frame.cursor + format_count held }
{
    cursor_cell(frame) + format_count(held)
}

// The ERROR that FORMAT DATA's values draw: map bits, then more cells than remain.
#[tactic(auto, unfolding(rules::specs::Command::value_fault))]
fn format_fault(frame: Frame, attrs: &[u8], held: Held) -> Result<(), Fault>
    ensures { result ≡ value_fault (seen frame attrs.now) Command.FormatData held }
{
    if 31 < first_parameter(held) || second_parameter(held) != 0 {
        return Err(Fault::BadMap);
    }
    unless(format_end(frame, held) <= attrs.len(), Fault::BadValue)
}

fn is_verb(byte: u8) -> bool
    ensures { result ≡ between (verb_code Will) (verb_code Dont) byte }
{
    WILL <= byte && byte <= DONT
}

// The ERROR that the parameters' values draw, their count being right.
#[tactic(auto, unfolding(rules::specs::Command::value_fault))]
fn value_fault(frame: Frame, attrs: &[u8], command: Command, held: Held) -> Result<(), Fault>
    ensures { result ≡ value_fault (seen frame attrs.now) command held }
{
    match command {
        Command::MoveCursor => {
            let place = place_parameters(held);
            unless(
                on_screen(frame.width, frame.height, place),
                Fault::OffScreen,
            )
        }
        Command::FormatData => format_fault(frame, attrs, held),
        Command::Repeat => unless(is_printable(second_parameter(held)), Fault::BadValue),
        Command::SuppressProtection => unless(is_verb(first_parameter(held)), Fault::BadValue),
        _ => Ok(()),
    }
}

// The ERROR that a known command draws: by its facility, by its parameters' count, then by their values. The code is among the bytes
// held.
#[tactic(auto, unfolding(rules::specs::Command::fault_of))]
pub fn fault_of(frame: Frame, attrs: &[u8], code: Code, held: Held) -> Result<(), Fault>
    ensures { result ≡ fault_of (seen frame attrs.now) code.command code.parameters code.governor held }
{
    let Code {
        command,
        parameters,
        governor,
    } = code;
    if !is_agreed(frame.edition, frame.received, governor) {
        return Err(Fault::NotAgreed);
    }
    let wanted = parameters as usize + 1;
    let count = held.count as usize;
    if count < wanted {
        return Err(Fault::TooFewParameters);
    }
    if wanted < count {
        return Err(Fault::TooManyParameters);
    }
    value_fault(frame, attrs, command, held)
}
