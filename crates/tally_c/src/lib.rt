// Counts what a Telnet stream holds, for programs in C: the counts of the crate `tally`.
#![tactic(auto)]

ghost use Rattle.std.specs.Prelude.{◌≡◌};
ghost use Rattle.telnet.specs.declared.Phase.TheVariants.{Rest};
ghost use Rattle.telnet.specs.Stream.{events_of};
ghost use Rattle.tally.specs.Counts.{tally_of};

use tally::tally_of;

// The counts of a whole stream, each through a pointer of its own:
// void telnet_tally(const uint8_t *input, size_t length, size_t *data, size_t *negotiations, size_t *payload, size_t *ended);
#[unsafe(no_mangle)]
pub extern "C" fn telnet_tally(
    input: &[u8],
    data_bytes: &mut usize,
    negotiations: &mut usize,
    payload: &mut usize,
    ended: &mut usize,
)
    ensures data_bytes_after { data_bytes.new ≡ (tally_of (events_of Rest input.now)).data_bytes }
    ensures negotiations_after { negotiations.new ≡ (tally_of (events_of Rest input.now)).negotiations }
    ensures payload_after { payload.new ≡ (tally_of (events_of Rest input.now)).payload }
    ensures ended_after { ended.new ≡ (tally_of (events_of Rest input.now)).ended }
{
    let tally = tally_of(input);
    *data_bytes = tally.data_bytes;
    *negotiations = tally.negotiations;
    *payload = tally.payload;
    *ended = tally.ended;
}
