// Answers written into the rooms that a caller gives.
ghost use Rattle.std.specs.Prelude.{◌≡◌, length};
ghost use Rattle.engine_face.specs.Links.{ListFits};
ghost use Rattle.engine_face.specs.Shown.{Fits};

use crate::status::Status;

/// How much room a list needs whose rows have texts.
#[repr(C)]
#[derive(Clone, Copy)]
pub struct ListSizes {
    /// How many rows there are.
    pub rows: usize,
    /// How many bytes their texts have.
    pub bytes: usize,
}

// Writes bytes or rows at the head of the room. What is longer than the room isn't written at all.
pub(crate) fn write<T: Copy>(items: &[T], room: &mut [T]) -> Status
    ensures { Fits items.now room.old room.new result }
{
    if items.len() <= room.len() {
        room[..items.len()].copy_from_slice(items);
        Status::Done
    } else {
        Status::NoRoom
    }
}

// Tells how long a text is, and writes it.
pub(crate) fn tell(text: &[u8], room: &mut [u8], needed: &mut usize) -> Status
    ensures fits { Fits text.now room.old room.new result }
    ensures told { needed.new ≡ length text.now }
{
    *needed = text.len();
    write(text, room)
}

// Writes rows and the bytes of their texts, each at the head of its room, where there is room for both.
pub(crate) fn write_list<T: Copy>(
    rows: &[T],
    bytes: &[u8],
    room: &mut [T],
    bytes_room: &mut [u8],
) -> Status
    ensures { ListFits rows.now bytes.now room.old room.new bytes_room.old bytes_room.new result }
{
    if rows.len() <= room.len() && bytes.len() <= bytes_room.len() {
        room[..rows.len()].copy_from_slice(rows);
        bytes_room[..bytes.len()].copy_from_slice(bytes);
        Status::Done
    } else {
        Status::NoRoom
    }
}
