// Where the requests of a file stand, and how much room one asks for.
#![tactic(auto)]

mod records;

ghost use Rattle.std.specs.Prelude.{◌≡◌};
ghost use Rattle.records.specs.Record.{room_wanted};

pub use records::{Record, Records};

// How much room the bytes of a request ask for; 0 where they ask for none, which is lent then.
pub fn wanted_room(request: &[u8]) -> u64
    ensures { result ≡ room_wanted request.now }
{
    match request.split_last_chunk::<8>() {
        Some(([1, ..], room)) => u64::from_be_bytes(*room),
        _ => 0,
    }
}
