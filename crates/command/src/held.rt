// The first bytes of a subnegotiation, and what is read from them.
ghost use Rattle.std.specs.Prelude.{◌≡◌, ◌<◌, min, get_or};
ghost use Rattle.rules.specs.Session.{none_held};
ghost use Rattle.rules.specs.Telnet.{holding, held_after, cr_after};
ghost use Rattle.rules.specs.Command.{code_in, parameter, place_in, format_count};
ghost use Rattle.command.specs.Held.{holding_all};

use pad::ascii::CR;
use rules::Held;
use screen::cell::{Column, Line, Place};
use telnet::Event;

pub fn none() -> Held
    ensures { result ≡ none_held }
{
    Held {
        bytes: [0u8; 6],
        count: 0,
    }
}

// One byte more where fewer than six are held, stored where they lie.
#[tactic(auto, unfolding(rules::specs::Telnet::holding))]
fn hold_here(held: &mut Held, byte: u8)
    ensures { held.new ≡ holding held.old byte }
{
    if held.count < 6 {
        held.bytes[held.count as usize] = byte;
        held.count += 1;
    }
}

pub fn hold(held: Held, byte: u8) -> Held
    ensures { result ≡ holding held byte }
{
    let mut after = held;
    hold_here(&mut after, byte);
    after
}

// What is held after these bytes, one after the other: where six are held, no further one is looked at.
#[tactic(auto, using(crate::proofs::HeldLaws::held_more, crate::proofs::HeldLaws::held_all), unfolding(crate::specs::Held::holding_all))]
pub fn hold_all(held: Held, input: &[u8]) -> Held
    ensures { result ≡ holding_all held input.now }
{
    let mut after = held;
    for byte in input {
        if after.count >= 6 {
            return after;
        }
        hold_here(&mut after, *byte);
    }
    after
}

// The byte at i, or 0 beyond the end.
fn byte_at(bytes: &[u8], i: usize) -> u8
    ensures { result ≡ get_or bytes.now i 0 }
{
    bytes.get(i).copied().unwrap_or(0)
}

// What is held of a whole subnegotiation: its first six bytes, read at once.
#[tactic(auto, using(crate::proofs::HeldLaws::held_first))]
pub fn held_of(bytes: &[u8]) -> Held
    ensures { result ≡ holding_all none_held bytes.now }
{
    Held {
        bytes: [
            byte_at(bytes, 0),
            byte_at(bytes, 1),
            byte_at(bytes, 2),
            byte_at(bytes, 3),
            byte_at(bytes, 4),
            byte_at(bytes, 5),
        ],
        count: bytes.len().min(6) as u8,
    }
}

// What is held after what the reader told.
#[tactic(auto, unfolding(rules::specs::Telnet::held_after))]
pub fn held_after(held: Held, event: Event) -> Held
    ensures { result ≡ held_after held event }
{
    match event {
        Event::Nothing | Event::Data(_) | Event::Negotiation { .. } => held,
        Event::Sub { option: _, byte } => hold(held, byte),
        Event::Begin(_) | Event::End(_) | Event::EndBare | Event::Lost => none(),
    }
}

// Whether the last byte of data was a CR, after what the reader told.
#[tactic(auto, unfolding(rules::specs::Telnet::cr_after))]
pub fn cr_after(cr: bool, event: Event) -> bool
    ensures { result ≡ cr_after cr event }
{
    match event {
        Event::Data(byte) => byte == CR,
        _ => cr,
    }
}

// The code is the first byte.
pub fn code(held: Held) -> u8
    ensures { result ≡ code_in held }
{
    let bytes = held.bytes;
    bytes[0]
}

// Parameter i, from 0.
fn parameter(held: Held, i: usize) -> u8
    requires { i < 5 }
    ensures { result ≡ parameter held i }
{
    let bytes = held.bytes;
    bytes[i + 1]
}

pub fn first_parameter(held: Held) -> u8
    ensures { result ≡ parameter held 0 }
{
    parameter(held, 0)
}

pub fn second_parameter(held: Held) -> u8
    ensures { result ≡ parameter held 1 }
{
    parameter(held, 1)
}

// MOVE CURSOR's two bytes, as a character position and a line position.
// (Document 01, code places: tuple structs for x and y, so that the parameters cannot change places.)
pub fn place_parameters(held: Held) -> Place
    ensures { result ≡ place_in held }
{
    Place {
        x: Column(parameter(held, 0)),
        y: Line(parameter(held, 1)),
    }
}

// FORMAT DATA's count of two bytes, high first.
pub fn format_count(held: Held) -> usize
    ensures counted { result ≡ format_count held }
    ensures few { result < 65536 }
{
    parameter(held, 2) as usize * 256 + parameter(held, 3) as usize
}
