// Saves and loads, once the guard is known to be running and idle: the numbers that are left, in their order, and the
// work.
#![tactic(auto)]

ghost use Rattle.std.specs.Prelude.{◌≡◌, ◌≤◌, length};
ghost use Rattle.filesystem.specs.Image.{saved, print, image_length};
ghost use Rattle.filesystem.specs.Tables.{ID_BYTES, NODES, PAGES, DIGEST_BYTES, page_total};
ghost use Rattle.rules.specs.Skeleton.{Config, at_front};
ghost use Rattle.numbers.specs.Slices.{KeepsLength};
ghost use Rattle.digest.specs.Sha256.{sha256};
ghost use Rattle.memory.specs.Memories.{IsMemory};
ghost use Rattle.guard_state.specs.State.{state_of};
ghost use Rattle.image_writer.specs.Images.{nodes_in, image_in};
ghost use Rattle.saves.specs.Saved.{saved_into, loaded_from, Saves, Loads};

use guard_state::Guard;
use image_records::Layout;
use outcomes::Outcome;
use refusals::Refusal;

// A saved image's layout: there are no bytes of a record's maker.
const SAVED: Layout = Layout {
    id_bytes: limits::ID_BYTES,
    maker_bytes: 0,
};

// The image of n nodes at the front of its buffer, and its SHA-256 at the front of `digest`; the image's length.
fn put_image(m: &[u8], n: usize, image: &mut [u8], digest: &mut [u8]) -> usize
    requires { (n ≤ NODES) × IsMemory m.now × (page_total (nodes_in n m.now) ≤ PAGES)
        × (image_length (saved ID_BYTES) (nodes_in n m.now) ≤ length image.old)
        × (DIGEST_BYTES ≤ length digest.old) }
    ensures { (image.new
        ≡ at_front (print (saved ID_BYTES) (image_in n m.now)) image.old)
        × (digest.new
        ≡ at_front (sha256 (print (saved ID_BYTES) (image_in n m.now))) digest.old)
        × (result ≡ length (print (saved ID_BYTES) (image_in n m.now))) }
{
    let l = image_writer::write_image(m, n, SAVED, image, 0);
    let d = image_writer::seal(&image[..l]);
    buffers::put(digest, 0, &d);
    l
}

// A save: 16, 34, else the image at the front of its buffer, and its SHA-256 at the front of `digest`.
pub fn save(m: &mut [u8], image: &mut [u8], digest: &mut [u8]) -> Outcome
    requires { (DIGEST_BYTES ≤ length digest.old) × IsMemory m.old }
    ensures saves { (c : Config) → c.digest ≡ sha256 → c.width ≡ ID_BYTES
        → page_total (state_of c m.old).skeleton.tables.nodes ≤ PAGES
        → Saves c (saved_into c (state_of c m.old) (length image.old)) result m.new
        image.old image.new digest.old digest.new }
    ensures keeps_length { KeepsLength m }
{
    let g = Guard::load(m);
    if 0 < g.opens {
        return Outcome::Refused(Refusal::Busy);
    }
    if image.len() < image_writer::image_length(m, g.nodes, SAVED) {
        return Outcome::Refused(Refusal::ShortBuffer);
    }
    // no valid tables have more pages
    if Guard::PAGES < tables::first_page(m, g.nodes) {
        return Outcome::Refused(Refusal::NoSpace);
    }
    let l = put_image(m, g.nodes, image, digest);
    guard_state::finish(m);
    Outcome::Done {
        number: l as u64,
        length: l,
    }
}

// A load: 16, 74, 84, else the image's tables in place of those that stood.
pub fn load(m: &mut [u8], image: &[u8], digest: &[u8]) -> Outcome
    requires { IsMemory m.old }
    ensures loads { (c : Config) → c.digest ≡ sha256 → c.width ≡ ID_BYTES
        → Loads c (loaded_from c (state_of c m.old) image.now digest.now) result
        m.new }
    ensures keeps_length { KeepsLength m }
{
    let g = Guard::load(m);
    if 0 < g.opens {
        return Outcome::Refused(Refusal::Busy);
    }
    if !image_writer::same_digest(image, digest) {
        return Outcome::Refused(Refusal::WrongDigest);
    }
    if !image_reader::is_sound(image, SAVED) {
        return Outcome::Refused(Refusal::BadImage);
    }
    let n = image_loader::load_image(image, SAVED, m);
    guard_state::rest(m, n, 0);
    Outcome::Done {
        number: 0,
        length: 0,
    }
}
