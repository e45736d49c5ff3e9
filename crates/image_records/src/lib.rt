// An image's records by their places, in any layout: their fields, where they end, and what is judged of each by
// itself.
#![tactic(auto)]

ghost use Rattle.std.specs.Prelude.{true, false, ◌&&◌, ◌||◌, ◌≡◌, ◌+◌, ◌*◌, ◌≤◌, ◌<◌, eqb, leb, length, MatchOption};
ghost use Rattle.lists.specs.Search.{every};
ghost use Rattle.filesystem.specs.Image.{is_root, in_limits, front_length};
ghost use Rattle.filesystem.specs.Paths.{component_form};
ghost use Rattle.filesystem.specs.Tables.{NODES, FILE_BYTES, NAME_BYTES, page_total};
ghost use Rattle.image_records.specs.Laid.{laid};
ghost use Rattle.image_records.specs.Records.{record_at, record_end, nodes_from, end_from, records_end, marked_from};
ghost use Rattle.image_records.specs.Records.{record_id, record_parent, record_kind, record_mode, formed, plain_byte};

mod layouts;

pub use layouts::Layout;

// ---- a record's fields

// The bytes of a record before its name.
pub fn front_length(layout: Layout) -> usize
    ensures { (result ≡ front_length (laid layout)) × (result ≡ 2 * layout.id_bytes + layout.maker_bytes + 7)
        × (result ≤ 24) }
{
    2 * layout.id_bytes + layout.maker_bytes + 7
}

pub fn record_id(image: &[u8], layout: Layout, at: usize) -> u64
    requires { at + layout.id_bytes ≤ length image.now }
    ensures { result ≡ record_id layout.id_bytes image.now at }
{
    numbers::number_at(image, at, layout.id_bytes)
}

pub fn record_parent(image: &[u8], layout: Layout, at: usize) -> u64
    requires { at + 2 * layout.id_bytes ≤ length image.now }
    ensures { result ≡ record_parent layout.id_bytes image.now at }
{
    numbers::number_at(image, at + layout.id_bytes, layout.id_bytes)
}

pub fn record_kind(image: &[u8], layout: Layout, at: usize) -> u8
    requires { at + 2 * layout.id_bytes + 1 ≤ length image.now }
    ensures { result ≡ record_kind layout.id_bytes image.now at }
{
    image[at + 2 * layout.id_bytes]
}

pub fn record_mode(image: &[u8], layout: Layout, at: usize) -> u8
    requires { at + 2 * layout.id_bytes + 2 ≤ length image.now }
    ensures { result ≡ record_mode layout.id_bytes image.now at }
{
    image[at + 2 * layout.id_bytes + 1]
}

pub fn record_size(image: &[u8], layout: Layout, at: usize) -> u32
    requires { at + front_length (laid layout) ≤ length image.now }
    ensures { result ≡ (record_at (laid layout) image.now at).size }
{
    numbers::u32_at(image, at + front_length(layout) - 5)
}

// The place behind the record.
pub fn record_end(image: &[u8], layout: Layout, at: usize) -> usize
    requires { at + front_length (laid layout) ≤ length image.now }
    ensures { (result ≡ record_end (laid layout) image.now at)
        × (at + front_length (laid layout) ≤ result) × (result ≤ at + front_length (laid layout) + 255) }
{
    let name = at + front_length(layout);
    name + image[name - 1] as usize
}

pub fn record_name(image: &[u8], layout: Layout, at: usize) -> &[u8]
    requires { record_end (laid layout) image.now at ≤ length image.now }
    ensures { result.now ≡ (record_at (laid layout) image.now at).name }
{
    let start = at + front_length(layout);
    let end = record_end(image, layout, at);
    &image[start..end]
}

// ---- where the sections stand

// The place behind n records, if the image does not end before.
fn records_end(image: &[u8], layout: Layout, n: usize) -> Option<usize>
    requires { 4 ≤ length image.now }
    ensures { MatchOption result (length image.now < end_from (laid layout) image.now 4 n)
        (λ e. (e ≡ end_from (laid layout) image.now 4 n) × (e ≤ length image.now)) }
{
    let mut at = 4;
    for _i in 0..n {
        if image.len() - at < front_length(layout) {
            return None;
        }
        at = record_end(image, layout, at);
        if image.len() < at {
            return None;
        }
    }
    Some(at)
}

// Whether the first n records have their maker, where the layout has one.
#[tactic(auto, using(crate::specs::laws::RecordLaws::front_in))]
fn are_marked(image: &[u8], layout: Layout, n: usize) -> bool
    requires { end_from (laid layout) image.now 4 n ≤ length image.now }
    ensures { result ≡ marked_from (laid layout) image.now 4 n }
{
    if layout.maker_bytes == 0 {
        return true;
    }
    let mut at = 4;
    // the records before `at` have
    for _i in 0..n {
        if image[at + 2 * layout.id_bytes + 2] != 1 {
            return false;
        }
        at = record_end(image, layout, at);
    }
    true
}

// The place behind the records, if the image has its form.
pub fn form(image: &[u8], layout: Layout) -> Option<usize>
    ensures { MatchOption result (formed (laid layout) image.now ≡ false)
        (λ e. (e ≡ records_end (laid layout) image.now) × (formed (laid layout) image.now ≡ true)) }
{
    let len = image.len();
    if len < 4 {
        return None;
    }
    let n = numbers::u32_at(image, 0) as usize;
    if limits::NODES < n {
        return None;
    }
    let end = records_end(image, layout, n)?;
    if len - end < 4 {
        return None;
    }
    let k = numbers::u32_at(image, end) as usize;
    if len - end - 4 != k * limits::DIGEST_BYTES {
        return None;
    }
    if !are_marked(image, layout, n) {
        return None;
    }
    Some(end)
}

// ---- a node by itself

// No byte 0 and no slash.
fn is_plain(name: &[u8]) -> bool
    ensures { result ≡ every plain_byte name.now }
{
    name.iter().all(|b| *b != 0 && *b != b'/')
}

// A component's form, and at most 32 bytes.
pub fn is_named(name: &[u8]) -> bool
    ensures { result ≡ (component_form name.now && leb (length name.now) NAME_BYTES) }
{
    if limits::NAME_BYTES < name.len() {
        return false;
    }
    if !paths::is_name(name) {
        return false;
    }
    is_plain(name)
}

fn is_kind_and_size(kind: u8, size: u32) -> bool
    ensures { result ≡ (eqb kind 1 && leb size FILE_BYTES || eqb kind 2 && eqb size 0) }
{
    match kind {
        limits::FILE => size as usize <= limits::FILE_BYTES,
        limits::DIRECTORY => size == 0,
        _ => false,
    }
}

// The limits of a node by itself.
pub fn is_in_limits(image: &[u8], layout: Layout, at: usize) -> bool
    requires { at + front_length (laid layout) ≤ length image.now }
    ensures { result ≡ in_limits layout.id_bytes (record_at (laid layout) image.now at) }
{
    if record_id(image, layout, at) == 0 {
        return false;
    }
    if 7 < record_mode(image, layout, at) {
        return false;
    }
    is_kind_and_size(
        record_kind(image, layout, at),
        record_size(image, layout, at),
    )
}

pub fn is_root(image: &[u8], layout: Layout, at: usize) -> bool
    requires { record_end (laid layout) image.now at ≤ length image.now }
    ensures { result ≡ is_root (record_at (laid layout) image.now at) }
{
    if record_id(image, layout, at) != 1 {
        return false;
    }
    if record_kind(image, layout, at) != limits::DIRECTORY {
        return false;
    }
    if record_parent(image, layout, at) != 0 {
        return false;
    }
    record_name(image, layout, at).is_empty()
}

// The pages of the first n nodes.
#[tactic(auto, using(crate::specs::laws::RecordLaws::front_in))]
pub fn page_sum(image: &[u8], layout: Layout, n: usize) -> usize
    requires { (n ≤ NODES) × (end_from (laid layout) image.now 4 n ≤ length image.now) }
    ensures { result ≡ page_total (nodes_from (laid layout) image.now 4 n) }
{
    let mut at = 4;
    let mut total: usize = 0;
    // `total` pages in the records before `at`
    for _i in 0..n {
        total += tables::pages_for(record_size(image, layout, at));
        at = record_end(image, layout, at);
    }
    total
}
