// Items that are gathered into room that is taken once.
ghost use Rattle.std.specs.Prelude.{◌≡◌, ◌<◌, ◌≤◌, ◌+◌, ◌++◌, ◌∷◌, [], length, take, if◌then◌else◌};

/// Writes an item behind the first ones of a row, and tells how many they are with it, if it is to be kept. It is
/// written in any case and counted where it is kept, so that nothing branches on that.
#[inline(always)]
pub fn put<T: Copy + Drop>(room: &mut [T], count: usize, item: T, keep: bool) -> usize
    requires { count < length room.old }
    ensures items { take result room.new ≡ (if keep then take count room.old ++ item
        ∷ [] else take count room.old) }
    ensures few { result ≤ count + 1 }
{
    room[count] = item;
    count + usize::from(keep)
}
