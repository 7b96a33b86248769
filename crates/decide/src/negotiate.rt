// Negotiation: options 20 and 30 are switched, every other is declined.
ghost use Rattle.std.specs.Prelude.{◌≡◌, List, ℕ};
ghost use Rattle.rules.specs.Session.{view};
ghost use Rattle.rules.specs.Telnet.{option_of, is_on, accepts, turned, negotiated};
ghost use Rattle.decide.specs.Decision.{Decides};
ghost use Rattle.decide.specs.Inner.Decision.{decision};

use crate::decision::{Decision, Edit, Say};
use command::facility::no_maps;
use command::frame::{switched, with_received, with_x3};
use command::number::{DET, X3};
use rules::{Frame, TelnetOption};
use telnet::Verb;

fn answered(frame: Frame, verb: Verb, option: u8) -> Decision
    ensures { result ≡ decision frame Edit.Nothing (Say.Negotiation verb option) }
{
    Decision::saying(frame, Say::Negotiation { verb, option })
}

// The options that the terminal has. A function and no `From`: the type belongs to `rules`. So too `key_of`.
#[tactic(auto, unfolding(rules::specs::Telnet::option_of))]
fn option_of(option: u8) -> Option<TelnetOption>
    ensures { result ≡ option_of option }
{
    match option {
        DET => Some(TelnetOption::Det),
        X3 => Some(TelnetOption::X3),
        _ => None,
    }
}

#[tactic(auto, unfolding(rules::specs::Telnet::is_on))]
fn is_on(frame: Frame, option: TelnetOption) -> bool
    ensures { result ≡ is_on frame option }
{
    match option {
        TelnetOption::Det => frame.det,
        TelnetOption::X3 => frame.x3,
    }
}

// May it be switched on? 30 only where a full edit line fits the reply room.
#[tactic(auto, unfolding(rules::specs::Telnet::accepts))]
fn is_accepted(frame: Frame, option: TelnetOption) -> bool
    ensures { result ≡ accepts frame option }
{
    match option {
        TelnetOption::Det => true,
        TelnetOption::X3 => 37 <= frame.height as usize * frame.width as usize,
    }
}

// Switched on or off. With DET off, protection is in effect again, and nothing is agreed.
#[tactic(auto, unfolding(rules::specs::Telnet::turned))]
fn turned(frame: Frame, option: TelnetOption, on: bool) -> Frame
    ensures { result ≡ turned frame option on }
{
    match option {
        TelnetOption::Det if on => switched(frame, true, frame.suppressed),
        TelnetOption::Det => with_received(switched(frame, false, false), no_maps()),
        TelnetOption::X3 => with_x3(frame, on),
    }
}

#[tactic(auto, unfolding(rules::specs::Telnet::negotiated, rules::specs::Telnet::switched_on))]
fn asked_to(frame: Frame, option: u8) -> Decision
    ensures { (attrs : List ℕ) → Decides (view frame attrs) result (λ v. negotiated v Verb.Do option) }
{
    let Some(known) = option_of(option) else {
        return answered(frame, Verb::Wont, option);
    };
    if is_on(frame, known) {
        return Decision::quiet(frame);
    }
    if is_accepted(frame, known) {
        return answered(turned(frame, known, true), Verb::Will, option);
    }
    answered(frame, Verb::Wont, option)
}

#[tactic(auto, unfolding(rules::specs::Telnet::negotiated, rules::specs::Telnet::switched_off))]
fn asked_not_to(frame: Frame, option: u8) -> Decision
    ensures { (attrs : List ℕ) → Decides (view frame attrs) result (λ v. negotiated v Verb.Dont option) }
{
    match option_of(option) {
        Some(known) if is_on(frame, known) => answered(
            turned(frame, known, false),
            Verb::Wont,
            option,
        ),
        _ => Decision::quiet(frame),
    }
}

#[tactic(auto, unfolding(rules::specs::Telnet::negotiated))]
pub fn negotiate(frame: Frame, verb: Verb, option: u8) -> Decision
    ensures { (attrs : List ℕ) → Decides (view frame attrs) result (λ v. negotiated v verb option) }
{
    match verb {
        Verb::Do => asked_to(frame, option),
        Verb::Dont => asked_not_to(frame, option),
        Verb::Will => answered(frame, Verb::Dont, option),
        Verb::Wont => Decision::quiet(frame),
    }
}
