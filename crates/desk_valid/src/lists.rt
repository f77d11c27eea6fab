//! The lists of the clerks.
ghost use Rattle.std.specs.Prelude.{◌≡◌};
ghost use Rattle.desk_words.specs.Tables.{list_at, lists_of};

use desk_base::Room;

/// The list of the clerk in this row, counted from 0; of a clerk who is not there, an empty one.
pub fn own_list<T>(lists: &Room<Room<T>>, clerk: usize) -> &[T]
    ensures { result.now ≡ list_at (lists_of lists.now) clerk }
{
    match lists.as_slice().get(clerk) {
        Some(list) => list.as_slice(),
        None => &[],
    }
}
