// The tables of a sound image, in any layout, put into the memory.
#![tactic(auto)]

ghost use Rattle.std.specs.Prelude.{true, ◌≡◌, ◌+◌, ◌*◌, ◌≤◌, ◌<◌, length, drop, set};
ghost use Rattle.lists.specs.LittleEndian.{decode};
ghost use Rattle.lists.specs.Parts.{overwrite, part};
ghost use Rattle.lists.specs.Rows.{rows};
ghost use Rattle.filesystem.specs.Image.{sound_nodes, parse};
ghost use Rattle.filesystem.specs.Tables.{NODES, PAGES, DIGEST_BYTES, NAME_BYTES};
ghost use Rattle.numbers.specs.Slices.{KeepsLength};
ghost use Rattle.memory.specs.Layout.{with_nodes, with_digests};
ghost use Rattle.memory.specs.Memories.{Becomes, IsMemory, was};
ghost use Rattle.image_records.specs.Laid.{laid};
ghost use Rattle.image_records.specs.Records.{record_at, record_end, nodes_from, end_from, is_some};
ghost use Rattle.image_loader.specs.Loaded.{Loaded};

use image_records::Layout;

// The record at `at` as node i of the memory.
fn load_record(image: &[u8], layout: Layout, at: usize, m: &mut [u8], i: usize)
    requires { (record_end (laid layout) image.now at ≤ length image.now)
        × (length (record_at (laid layout) image.now at).name ≤ NAME_BYTES) × (i < NODES) × IsMemory m.old }
    ensures { Becomes m (with_nodes (set (was m.old).nodes i
        (record_at (laid layout) image.now at))) }
{
    let name = image_records::record_name(image, layout, at);
    let row = memory::node_row(
        image_records::record_id(image, layout, at),
        image_records::record_parent(image, layout, at),
        image_records::record_kind(image, layout, at),
        image_records::record_mode(image, layout, at),
        image_records::record_size(image, layout, at),
        name,
    );
    memory::put_node(m, i, row);
}

// The first n records, which are sound, as the memory's first nodes; the place behind them.
fn load_records(image: &[u8], layout: Layout, n: usize, m: &mut [u8]) -> usize
    requires { (sound_nodes layout.id_bytes (nodes_from (laid layout) image.now 4 n) ≡ true) × (n ≤ NODES)
        × (end_from (laid layout) image.now 4 n ≤ length image.now) × IsMemory m.old }
    ensures becomes { Becomes m (with_nodes (overwrite (was m.old).nodes 0
        (nodes_from (laid layout) image.now 4 n))) }
    ensures value { result ≡ end_from (laid layout) image.now 4 n }
{
    let mut at = 4;
    // the i records before `at` are loaded
    for i in 0..n {
        load_record(image, layout, at, m, i);
        at = image_records::record_end(image, layout, at);
    }
    at
}

// The digests behind the second count, which stands at `end`, as the memory's first digests.
fn load_digests(image: &[u8], end: usize, m: &mut [u8])
    requires { (end + 4 + decode (part end 4 image.now) * DIGEST_BYTES ≡ length image.now)
        × (decode (part end 4 image.now) ≤ PAGES) × IsMemory m.old }
    ensures { Becomes m (with_digests (overwrite (was m.old).digests 0
        (rows DIGEST_BYTES (decode (part end 4 image.now)) (drop (end + 4) image.now)))) }
{
    let k = numbers::u32_at(image, end) as usize;
    let start = end + 4;
    memory::put_digests(m, k, &image[start..]);
}

// The tables of a sound image put into the memory, in place of its nodes and digests; the number of nodes.
pub fn load_image(image: &[u8], layout: Layout, m: &mut [u8]) -> usize
    requires { (is_some (parse (laid layout) image.now) ≡ true) × IsMemory m.old }
    ensures loaded { Loaded (laid layout) image.now m.old m.new result }
    ensures keeps_length { KeepsLength m }
{
    let n = numbers::u32_at(image, 0) as usize;
    let end = load_records(image, layout, n, m);
    load_digests(image, end, m);
    n
}
