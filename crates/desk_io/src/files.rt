ghost use Rattle.std.specs.Prelude.{◌≡◌, ◌≤◌, ◌-◌, length, min, take, drop};
ghost use Rattle.desk_io.specs.Files.{bytes_of};

use crate::slot::Slot;
use base_types::Text;

/// The bytes of the slot's file, and none where it has no file.
pub fn file_bytes(files: &[(Slot, Text)], slot: Slot) -> &[u8]
    ensures value { result.now ≡ bytes_of files.now slot }
{
    match files {
        [] => &[],
        [(of, text), rest @ ..] => {
            if of.number() == slot.number() {
                text.bytes()
            } else {
                file_bytes(rest, slot)
            }
        }
    }
}

/// Moves the next bytes of the file into the front of the room, as many as there are and fit, at most a portion.
pub fn move_bytes(file: &[u8], taken: usize, room: &mut [u8], portion: usize) -> usize
    requires { taken ≤ length file.now }
    ensures count { result ≡ min portion (min (length room.old) (length file.now - taken)) }
    ensures moved { take result room.new ≡ take result (drop taken file.now) }
{
    let rest = &file[taken..];
    let count = portion.min(room.len().min(rest.len()));
    room[..count].copy_from_slice(&rest[..count]);
    count
}
