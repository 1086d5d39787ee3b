ghost use Rattle.std.specs.Prelude.{◌≡◌, ◌≤◌, [], length, drop};
ghost use Rattle.store.specs.Entries.{without_from};
ghost use Rattle.store.specs.Headers.{headers_in};
ghost use Rattle.store.specs.Layouts.{by_len, room_of, spread};

use crate::headers::Headers;
use crate::layout::Layout;
use crate::memory::move_down;

/// Moves the letters of the sessions that are not at the places down, in their order, with their
/// headers into `stay`: where the last one then ends.
pub(crate) fn compact<L: Layout>(
    memory: &mut [u32],
    headers: &Headers,
    places: &[usize],
    stay: &mut Headers,
) -> usize
    requires empty { headers_in stay.old ≡ [] }
    requires inside { room_of L.pitch (headers_in headers.now) ≤ length memory.old }
    ensures headers { headers_in stay.new ≡ without_from 0 places.now (headers_in headers.now) }
    ensures end { result ≡ room_of L.pitch (headers_in stay.new) }
    ensures entries { spread (by_len L.pitch) (headers_in stay.new) memory.new ≡ without_from 0 places.now (spread (by_len L.pitch) (headers_in headers.now) memory.old) }
    ensures rest { drop (room_of L.pitch (headers_in headers.now)) memory.new ≡ drop (room_of L.pitch (headers_in headers.now)) memory.old }
{
    let headers = headers.as_slice();
    let mut from = 0;
    let mut to = 0;
    for (place, header) in headers.iter().enumerate() {
        let next = L::pitch(header.len);
        if places.contains(&place) {
            from += next;
            continue;
        }
        move_down(memory, from, to, header.len);
        stay.push(*header);
        from += next;
        to += next;
    }
    to
}
