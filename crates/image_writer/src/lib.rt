// The image that is saved (SPECIFICATION 8.4): how long it is, written into a caller's buffer, and its SHA-256.
#![tactic(auto)]

ghost use Rattle.std.specs.Prelude.{◌++◌, ◌≡◌, ◌+◌, ◌*◌, ◌≤◌, ◌<◌, length};
ghost use Rattle.lists.specs.Equal.{equal};
ghost use Rattle.lists.specs.Form.{put_all};
ghost use Rattle.lists.specs.LittleEndian.{encode};
ghost use Rattle.lists.specs.Parts.{overwrite};
ghost use Rattle.filesystem.specs.Image.{node_form, print, records_length, image_length};
ghost use Rattle.filesystem.specs.Tables.{NODES, PAGES, node_at, page_total};
ghost use Rattle.digest.specs.Sha256.{sha256};
ghost use Rattle.memory.specs.Layout.{mem_of};
ghost use Rattle.memory.specs.Memories.{IsMemory, was};
ghost use Rattle.image_records.specs.Laid.{laid};
ghost use Rattle.image_writer.specs.Images.{nodes_in, image_in, record_length, middle};

use image_records::Layout;

// ---- how long it is

// The bytes of the first n nodes' records.
fn records_length(m: &[u8], n: usize, layout: Layout) -> usize
    requires { (n ≤ NODES) × IsMemory m.now }
    ensures { (result ≡ records_length (laid layout) (nodes_in n m.now)) × (result ≤ n * 56) }
{
    let front = image_records::front_length(layout);
    let mut total: usize = 0;
    // `total` bytes in the first i records
    for i in 0..n {
        total += front + memory::node_name(m, i).len();
    }
    total
}

// The bytes of the image of the first n nodes.
pub fn image_length(m: &[u8], n: usize, layout: Layout) -> usize
    requires { (n ≤ NODES) × IsMemory m.now }
    ensures { result ≡ image_length (laid layout) (nodes_in n m.now) }
{
    let pages = tables::first_page(m, n);
    8 + records_length(m, n, layout) + limits::DIGEST_BYTES * pages
}

// ---- writing

// Each writes at a place of `out` and not at the front of a slice of it: what it promises is then of the whole buffer,
// and the next one goes on from the place that it returns.

// Two ids, written over a part of out.
fn write_ids(out: &mut [u8], at: usize, layout: Layout, id: u64, parent: u64)
    requires { at + 2 * layout.id_bytes ≤ length out.old }
    ensures { out.new ≡ overwrite out.old at (encode layout.id_bytes id ++ encode layout.id_bytes parent) }
{
    numbers::put_number(out, at, layout.id_bytes, id);
    numbers::put_number(out, at + layout.id_bytes, layout.id_bytes, parent);
}

// A record between its ids and its name, written over a part of out.
fn write_middle(out: &mut [u8], at: usize, layout: Layout, kind: u8, mode: u8, size: u32, n: usize)
    requires { at + layout.maker_bytes + 7 ≤ length out.old }
    ensures { out.new ≡ overwrite out.old at (middle (laid layout) kind mode size n) }
{
    let maker = layout.maker_bytes;
    numbers::put_number(out, at, 1, kind as u64);
    numbers::put_number(out, at + 1, 1, mode as u64);
    // the maker is client 1: its bytes are the number 1 in `maker` bytes
    numbers::put_number(out, at + 2, maker, 1);
    numbers::put_number(out, at + maker + 2, 4, size as u64);
    numbers::put_number(out, at + maker + 6, 1, n as u64);
}

// Node i's record, written over a part of out; the place behind it.
pub fn write_record(m: &[u8], i: usize, layout: Layout, out: &mut [u8], at: usize) -> usize
    requires { (i < NODES) × IsMemory m.now
        × (at + record_length (laid layout) (node_at (mem_of m.now).nodes i) ≤ length out.old) }
    ensures out_after { out.new ≡ overwrite out.old at
        ((node_form (laid layout)).put (node_at (was m.now).nodes i)) }
    ensures value { result ≡ at + record_length (laid layout) (node_at (was m.now).nodes i) }
{
    let name = memory::node_name(m, i);
    let kind = memory::node_kind(m, i);
    let mode = memory::node_mode(m, i);
    let size = memory::node_size(m, i);
    let behind = at + 2 * layout.id_bytes;
    let start = at + image_records::front_length(layout);
    let end = start + name.len();
    write_ids(
        out,
        at,
        layout,
        memory::node_id(m, i),
        memory::node_parent(m, i),
    );
    write_middle(out, behind, layout, kind, mode, size, name.len());
    buffers::put(out, start, name);
    end
}

// The first n nodes' records, written over a part of out; the place behind them.
pub fn write_records(m: &[u8], n: usize, layout: Layout, out: &mut [u8], at: usize) -> usize
    requires { (n ≤ NODES) × IsMemory m.now
        × (at + records_length (laid layout) (nodes_in n m.now) ≤ length out.old) }
    ensures out_after { out.new ≡ overwrite out.old at
        (put_all (node_form (laid layout)) (nodes_in n m.now)) }
    ensures value { result ≡ at + records_length (laid layout) (nodes_in n m.now) }
{
    let mut next = at;
    // the first i records stand before `next`
    for i in 0..n {
        next = write_record(m, i, layout, out, next);
    }
    next
}

// The image of the first n nodes, written over a part of out; the place behind it.
pub fn write_image(m: &[u8], n: usize, layout: Layout, out: &mut [u8], at: usize) -> usize
    requires { (n ≤ NODES) × IsMemory m.now × (page_total (nodes_in n m.now) ≤ PAGES)
        × (at + image_length (laid layout) (nodes_in n m.now) ≤ length out.old) }
    ensures out_after { out.new ≡ overwrite out.old at
        (print (laid layout) (image_in n m.now)) }
    ensures value { result ≡ at + length (print (laid layout) (image_in n m.now)) }
{
    let pages = tables::first_page(m, n);
    numbers::put_number(out, at, 4, n as u64);
    let behind = write_records(m, n, layout, out, at + 4);
    numbers::put_number(out, behind, 4, pages as u64);
    let start = behind + 4;
    buffers::put(out, start, memory::digests(m, pages));
    start + limits::DIGEST_BYTES * pages
}

// ---- the seal

// An image's SHA-256.
pub fn seal(image: &[u8]) -> [u8; limits::DIGEST_BYTES]
    ensures { result ≡ sha256 image.now }
{
    digest::sha256(image)
}

// Whether these bytes, however many, are the image's SHA-256.
pub fn same_digest(image: &[u8], expected: &[u8]) -> bool
    ensures { result ≡ equal (sha256 image.now) expected.now }
{
    let d = seal(image);
    buffers::same(&d, expected)
}
