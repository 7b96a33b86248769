// The edition of the codes that an open names, by the number of its RFC.
ghost use Rattle.std.specs.Prelude.{◌≡◌, if◌then◌else◌};
ghost use Rattle.rules.specs.Edition.{is_edition, edition_of, name_of};

use rules::Edition;

const JUNE: usize = 731;

const SEPTEMBER: usize = 732;

// The edition of this name. A function and no `TryFrom`: the type belongs to `rules`.
#[tactic(auto, unfolding(rules::specs::Edition::is_edition, rules::specs::Edition::edition_of))]
pub(crate) fn named(number: usize) -> Option<Edition>
    ensures { result ≡ (if is_edition number then Some (edition_of number) else None) }
{
    match number {
        JUNE => Some(Edition::June),
        SEPTEMBER => Some(Edition::September),
        _ => None,
    }
}

#[tactic(auto, unfolding(rules::specs::Edition::name_of))]
pub fn name_of(edition: Edition) -> usize
    ensures { result ≡ name_of edition }
{
    match edition {
        Edition::June => JUNE,
        Edition::September => SEPTEMBER,
    }
}
