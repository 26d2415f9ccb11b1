// What can be read from bytes, and lists of it: how many elements, as a number of two bytes, and then these.
ghost use Rattle.std.specs.Prelude.{◌≡◌, List, ℕ, IfOk, vec_items};
ghost use Rattle.std.specs.Option.{option_map};
ghost use Rattle.format.specs.Read.{Read, read_counted};
ghost use Rattle.scan.specs.Reads.{Reads};
ghost use Rattle.wire.specs.Kept.{Each, EachKept, appended};

use scan::{Fault, Reader};
use std::alloc::{AllocError, Global};

// What the format's definition reads, and what means it in the code.
pub(crate) trait FromBytes: Drop {
    // What is kept of one: itself, or maybe none where an expression in it can be nested too deep.
    type Kept;

    ghost Meaning: { Type 0 };

    ghost read_by: { List ℕ → Read Meaning };

    ghost means: { Self.Kept → Meaning → Type 0 };

    fn read(heap: Global, reader: &mut Reader) -> Result<Self::Kept, Fault>
        ensures { Reads read_by means reader.old reader.new result };
}

// All elements.
pub(crate) fn read_list<T: FromBytes<Kept = T>>(
    heap: Global,
    reader: &mut Reader,
) -> Result<Vec<T>, Fault>
    ensures { Reads (read_counted T.read_by) (Each T.means) reader.old reader.new result }
{
    let count = reader.u16()?;
    let mut items = Vec::new(heap);
    for _ in 0..count {
        items.push(T::read(heap, reader)?)?;
    }
    Ok(items)
}

// The same of elements that may not have been kept: then no list is. One function for both would need a trait of how a
// list grows, which is no plainer.
pub(crate) fn read_kept<T: FromBytes<Kept = Option<T>>>(
    heap: Global,
    reader: &mut Reader,
) -> Result<Option<Vec<T>>, Fault>
    ensures { Reads (read_counted T.read_by) (EachKept T.means) reader.old reader.new result }
{
    let count = reader.u16()?;
    let mut items = Some(Vec::new(heap));
    for _ in 0..count {
        items = append(items, T::read(heap, reader)?)?;
    }
    Ok(items)
}

// One more element, where all were kept.
fn append<T: Drop>(list: Option<Vec<T>>, item: Option<T>) -> Result<Option<Vec<T>>, AllocError>
    ensures { IfOk result (λ o. option_map vec_items o ≡ appended (option_map vec_items list) item) }
{
    let (Some(mut items), Some(item)) = (list, item) else {
        return Ok(None);
    };
    items.push(item)?;
    Ok(Some(items))
}
