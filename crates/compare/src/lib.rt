// Two parsers compared within a budget: alike, unlike with what shows it, or the budget is used up.
#![tactic(auto)]

ghost use Rattle.std.specs.Prelude.{◌≡◌, ℕ, ◌^◌, ◌≤◌, min, length};
ghost use Rattle.model.specs.Request.{compare as to_compare};
ghost use Rattle.model.specs.Promise.{RightAnswer, Answered};
ghost use Rattle.reply.specs.View.{answer_of};
ghost use Rattle.compare.specs.Budget.{compared, room_for};

use product::{Product, Side};
use reach::{System, table_words};
use reply::Answer;

mod headers;
mod pairs;

use pairs::sweep_pairs;

// Room is used up when less than this is left of it.
const LEAST_ROOM: u64 = 65_536;

// Do two parsers accept the same, each from its state? With so many turns of work, and at most so many
// numbers of the room. An answer says what is left of both; where two are unlike, what is in the
// headers and the message stand in the room.
pub fn compare(first: Side, second: Side, work: u64, most_room: u64, room: &mut [u64]) -> Answer
    ensures right { RightAnswer (to_compare (compared first second work (min most_room (length room.old)))) (answer_of room.new result) }
    ensures answers { Answered (to_compare (compared first second work (min most_room (length room.old)))) (answer_of room.new result) }
{
    let given = most_room.min(room.len() as u64);
    let Ok(product) = Product::new(first, second) else {
        // no room has so many numbers as their pairs would take
        return Answer::Neither { work, room: 0 };
    };
    let left = given.saturating_sub(room_for(product.count()));
    if left < LEAST_ROOM {
        return Answer::Neither { work, room: left };
    }
    sweep_pairs(&product, work, left, room)
}

// What a sweep through all pairs takes of the room: its tables, and the longest message. Its words are counted as
// reach counts those of a set: one term, which is not worth a public function.
fn room_for(pairs: u64) -> u64
    requires { pairs ≤ 2 ^ 60 }
    ensures { result ≡ room_for pairs }
{
    table_words(pairs) + pairs.div_ceil(64)
}
