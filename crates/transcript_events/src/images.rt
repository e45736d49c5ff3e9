// Saves and loads.
ghost use Rattle.std.specs.Prelude.{◌+◌, ◌*◌, ◌≤◌, length, min, unwrap_or};
ghost use Rattle.text.specs.Decimal.{read_decimal};
ghost use Rattle.text.specs.Hex.{decode_of};
ghost use Rattle.transcript_lines.specs.Room.{answer_line};
ghost use Rattle.transcript_lines.specs.Fields.{first_field, behind_field, load_from};
ghost use Rattle.transcript_events.specs.Handed.{zeros, Saved, LoadedDigits};

use super::EVENT_BYTES;
use transcript_lines::answers::AnswerLine;

// The longest buffer of a save.
const IMAGE_BUFFER: usize = 60000;

// A buffer handed in.
fn save_into(memory: &mut [u8], image: &mut [u8], said: &mut AnswerLine)
    requires { 29 + 2 * length image.old ≤ answer_line }
    ensures { Saved memory.old image.old memory.new said.new }
{
    let mut digest = [0u8; 32];
    let o = guard::on_save(memory, image, &mut digest);
    said.set_saved(o, image, digest);
}

// A buffer's length handed in.
pub fn answer_save(memory: &mut [u8], text: &[u8], said: &mut AnswerLine)
    ensures { Saved memory.old (zeros (min (unwrap_or (read_decimal text.now) 0) IMAGE_BUFFER)) memory.new said.new }
{
    let mut image = [0u8; IMAGE_BUFFER];
    let n = transcript_lines::number(text, IMAGE_BUFFER);
    save_into(memory, &mut image[..n], said);
}

// The digits of an image and of its digest handed in.
pub fn answer_load(memory: &mut [u8], text: &[u8], said: &mut AnswerLine)
    ensures { LoadedDigits
        (load_from (decode_of (first_field text.now) EVENT_BYTES) (decode_of (behind_field text.now) 64))
        memory.old text.now memory.new said.new }
{
    let mut image = [0u8; EVENT_BYTES];
    let mut digest = [0u8; 64];
    match transcript_lines::read_load(text, &mut image, &mut digest) {
        Ok(read) => {
            let o = guard::on_load(
                memory,
                desk_lines::first(&image, read.image),
                desk_lines::first(&digest, read.digest),
            );
            said.set_outcome(o, b"?", b"?");
        }
        Err(_) => said.set_bad(),
    }
}
