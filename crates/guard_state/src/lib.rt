// The guard's numbers in the memory's header, the memory as the machine's state, and the pending call: one begins to
// wait for a reply, is
// done, or the guard stops. Contracts are over the machine's states (specs/State.antt).
#![tactic(auto)]

ghost use Rattle.std.specs.Prelude.{[], ◌∷◌, ◌++◌, ◌≡◌, ◌+◌, ◌%◌, ◌<◌, ◌≤◌, length, get_or, take};
ghost use Rattle.filesystem.specs.Tables.{NODES, NAME_BYTES, FILE_BYTES, DATA_BYTES};
ghost use Rattle.rules.specs.Pages.{writing};
ghost use Rattle.filesystem.specs.MemoryMaps.{MAPS, MAP_BYTES};
ghost use Rattle.rules.specs.Requests.{asked, creating, closing, reading, fetching, mapping, unmapping};
ghost use Rattle.rules.specs.Requests.{renaming};
ghost use Rattle.rules.specs.Skeleton.{Config};
ghost use Rattle.machine.specs.Machine.{fresh, guard as digest_store};
ghost use Rattle.numbers.specs.Slices.{KeepsLength};
ghost use Rattle.memory.specs.Layout.{head_numbers, open_rows, new_digests, with_head};
ghost use Rattle.memory.specs.Memories.{Becomes, IsMemory, was};
ghost use Rattle.tables.specs.View.{view_of};
ghost use Rattle.guard_state.specs.Calls.{OnNode, question_on, Truncating, truncation_on, FETCHING, CUTTING};
ghost use Rattle.guard_state.specs.Onward.{write_numbers, truncate_numbers, goes_on};
ghost use Rattle.guard_state.specs.State.{pending_in, state_of, cleared_head, cleared_call, cleared_span, reading_head};
ghost use Rattle.guard_state.specs.State.{gathered_none, gathered_read, file_pages, numbers_in, map_count};
ghost use Rattle.guard_state.specs.Waits.{waits, ends, stops, remaps, resting_state, Turns, Waits};

pub mod calls;
pub mod header;

// The header's numbers.
#[derive(Clone, Copy)]
pub struct Guard {
    // how many nodes and open files there are; whether the guard has stopped
    pub nodes: usize,
    pub opens: usize,
    pub stopped: bool,
    // the pending call (calls.rt), and the places of its node and its open file
    pub call: u64,
    pub node: usize,
    pub opened: usize,
    // a new node: its parent's id, which a rename has too, its kind and its mode; a mode that is set; the rights of an
    // open
    pub parent: u64,
    pub kind: u64,
    pub mode: u64,
    pub rights: u64,
    // a read or a write: where it begins; how many bytes are read; a truncation's size; the page that was asked last
    pub position: usize,
    pub count: usize,
    pub size: usize,
    pub page: usize,
    // how much is staged: bytes of the call, digests of the pages that it has sent
    pub bytes: usize,
    pub digests: usize,
}

impl Guard {
    // the limits, for the crates above
    pub const NODES: usize = limits::NODES;

    pub const OPEN_FILES: usize = limits::OPEN_FILES;

    pub const PAGES: usize = limits::PAGES;

    pub const PAGE_BYTES: usize = limits::PAGE_BYTES;

    pub const FILE_BYTES: usize = limits::FILE_BYTES;

    pub const NAME_BYTES: usize = limits::NAME_BYTES;

    pub const PATH_BYTES: usize = limits::PATH_BYTES;

    pub const ID_BYTES: usize = limits::ID_BYTES;

    pub const DATA_BYTES: usize = limits::DATA_BYTES;

    pub const DIGEST_BYTES: usize = limits::DIGEST_BYTES;

    pub const DESCRIPTORS: usize = limits::DESCRIPTORS;

    pub const MAPS: usize = limits::MAPS;

    pub const MAP_UNIT: usize = limits::MAP_UNIT;

    // The numbers that the memory's header holds, each within its limit.
    pub fn load(m: &[u8]) -> Guard
        requires { IsMemory m.now }
        ensures { result ≡ numbers_in m.now }
    {
        Guard {
            nodes: number(m, header::NODES, limits::NODES),
            opens: number(m, header::OPENS, memory::OPEN_ROWS),
            stopped: memory::head(m, header::RUNNING) == 0,
            call: memory::head(m, header::CALL),
            node: number(m, header::NODE, LAST_NODE),
            opened: number(m, header::OPENED, LAST_OPEN),
            parent: memory::head(m, header::PARENT),
            kind: memory::head(m, header::KIND),
            mode: memory::head(m, header::MODE),
            rights: memory::head(m, header::RIGHTS),
            position: number(m, header::POSITION, limits::FILE_BYTES),
            count: number(m, header::COUNT, limits::DATA_BYTES),
            size: number(m, header::SIZE, limits::FILE_BYTES),
            page: number(m, header::PAGE, FILE_PAGES),
            bytes: number(m, header::BYTES, limits::DATA_BYTES),
            digests: number(m, header::DIGESTS, memory::NEW_DIGESTS),
        }
    }

    // A fresh guard: the root alone, idle.
    pub fn fresh(m: &mut [u8]) -> Guard
        requires { IsMemory m.old }
        ensures value { ((c : Config) → state_of c m.new ≡ fresh c (digest_store c))
            × (result ≡ numbers_in m.new) }
        ensures keeps_length { KeepsLength m }
    {
        let row = memory::node_row(1, 0, limits::DIRECTORY, 7, 0, b"");
        memory::put_node(m, 0, row);
        memory::put_head(m, header::MAPS, 0);
        rest(m, 1, 0);
        Guard::load(m)
    }
}

// ---- the header

const LAST_NODE: usize = limits::NODES - 1;

const LAST_OPEN: usize = memory::OPEN_ROWS - 1;

const FILE_PAGES: usize = limits::FILE_BYTES / limits::PAGE_BYTES;

// Number k of the header, at most `most`.
fn number(m: &[u8], k: usize, most: usize) -> usize
    requires { (k < head_numbers) × (most < 4294967296) × IsMemory m.now }
    ensures { result ≡ get_or (was m.now).head k 0 % (most + 1) }
{
    let x = memory::head(m, k);
    // what was written there is; a remainder of anything else would cost each load a multiplication
    if x <= most as u64 {
        return x as usize;
    }
    (x % (most as u64 + 1)) as usize
}

// How many nodes there are, for those who need no other number.
pub fn node_count(m: &[u8]) -> usize
    requires { IsMemory m.now }
    ensures { result ≡ (numbers_in m.now).nodes }
{
    number(m, header::NODES, limits::NODES)
}

// How many maps live.
pub fn map_count(m: &[u8]) -> usize
    requires { IsMemory m.now }
    ensures { result ≡ map_count (was m.now).head }
{
    number(m, header::MAPS, limits::MAPS)
}

// ---- the pending call

// Nothing is pending, and the guard has not stopped; the counts stay.
fn clear(m: &mut [u8])
    requires { IsMemory m.old }
    ensures { Becomes m (with_head (cleared_head (was m.old).head)) }
{
    clear_call(m);
    clear_span(m);
}

fn clear_call(m: &mut [u8])
    requires { IsMemory m.old }
    ensures { Becomes m (with_head (cleared_call (was m.old).head)) }
{
    memory::put_head(m, header::RUNNING, 1);
    memory::put_head(m, header::CALL, calls::IDLE);
    memory::put_head(m, header::NODE, 0);
    memory::put_head(m, header::OPENED, 0);
    memory::put_head(m, header::PARENT, 0);
    memory::put_head(m, header::KIND, 0);
    memory::put_head(m, header::MODE, 0);
}

fn clear_span(m: &mut [u8])
    requires { IsMemory m.old }
    ensures { Becomes m (with_head (cleared_span (was m.old).head)) }
{
    memory::put_head(m, header::RIGHTS, 0);
    memory::put_head(m, header::POSITION, 0);
    memory::put_head(m, header::COUNT, 0);
    memory::put_head(m, header::SIZE, 0);
    memory::put_head(m, header::PAGE, 0);
    memory::put_head(m, header::BYTES, 0);
    memory::put_head(m, header::DIGESTS, 0);
}

// ---- calls begin to wait

// A create or a mkdir: the parent's id, the kind, the mode, and the name, which is staged.
pub fn wait_create(m: &mut [u8], parent: u64, kind: u8, mode: u8, name: &[u8])
    requires { (length name.now ≤ NAME_BYTES) × IsMemory m.old }
    ensures { Waits m (asked (creating parent kind mode name.now)) gathered_none }
{
    let n = name.len();
    memory::stage(m, 0, name);
    clear(m);
    memory::put_head(m, header::CALL, calls::CREATING);
    memory::put_head(m, header::PARENT, parent);
    memory::put_head(m, header::KIND, kind as u64);
    memory::put_head(m, header::MODE, mode as u64);
    memory::put_head(m, header::BYTES, n as u64);
}

pub fn wait_close(m: &mut [u8], opened: usize)
    requires { (opened < open_rows) × IsMemory m.old }
    ensures { Waits m (asked (closing opened)) gathered_none }
{
    clear(m);
    memory::put_head(m, header::CALL, calls::CLOSING);
    memory::put_head(m, header::OPENED, opened as u64);
}

// A call on a node: open with its rights, chmod with its mode, remove, readdir, stat. The number stands under both:
// each reads its own.
pub fn wait_on_node(m: &mut [u8], call: u64, node: usize, number: u8)
    requires { OnNode call × (node < NODES) × IsMemory m.old }
    ensures { Waits m (asked (question_on call node number)) gathered_none }
{
    clear(m);
    memory::put_head(m, header::CALL, call);
    memory::put_head(m, header::NODE, node as u64);
    memory::put_head(m, header::MODE, number as u64);
    memory::put_head(m, header::RIGHTS, number as u64);
}

// A map of this size is asked for.
pub fn wait_map(m: &mut [u8], size: usize)
    requires { (size ≤ MAP_BYTES) × IsMemory m.old }
    ensures { Waits m (asked (mapping size)) gathered_none }
{
    clear(m);
    memory::put_head(m, header::CALL, calls::MAPPING);
    memory::put_head(m, header::SIZE, size as u64);
}

// The map at this address is to end. It stands where a parent's id does.
pub fn wait_unmap(m: &mut [u8], address: u64)
    requires { IsMemory m.old }
    ensures { Waits m (asked (unmapping address)) gathered_none }
{
    clear(m);
    memory::put_head(m, header::CALL, calls::UNMAPPING);
    memory::put_head(m, header::PARENT, address);
}

// A rename: the node, its new parent's id, and the new name, which is staged.
pub fn wait_rename(m: &mut [u8], node: usize, parent: u64, name: &[u8])
    requires { (node < NODES) × (length name.now ≤ NAME_BYTES) × IsMemory m.old }
    ensures { Waits m (asked (renaming node parent name.now)) gathered_none }
{
    let n = name.len();
    memory::stage(m, 0, name);
    clear(m);
    memory::put_head(m, header::CALL, calls::RENAMING);
    memory::put_head(m, header::NODE, node as u64);
    memory::put_head(m, header::PARENT, parent);
    memory::put_head(m, header::BYTES, n as u64);
}

// The numbers of a read that waits for a page.
fn put_read(m: &mut [u8], node: usize, opened: usize, position: usize, count: usize, page: usize)
    requires { IsMemory m.old }
    ensures { Becomes m (with_head (reading_head (was m.old).head node opened position count page)) }
{
    clear(m);
    memory::put_head(m, header::CALL, calls::READING);
    memory::put_head(m, header::NODE, node as u64);
    memory::put_head(m, header::OPENED, opened as u64);
    memory::put_head(m, header::POSITION, position as u64);
    memory::put_head(m, header::COUNT, count as u64);
    memory::put_head(m, header::PAGE, page as u64);
}

// A read waits for its first page: nothing is gathered yet.
pub fn wait_read(
    m: &mut [u8],
    node: usize,
    opened: usize,
    position: usize,
    count: usize,
    page: usize,
)
    requires { (node < NODES) × (opened < open_rows) × (position ≤ FILE_BYTES) × (count ≤ DATA_BYTES)
        × (page ≤ file_pages) × IsMemory m.old }
    ensures { Waits m (reading node opened position count page) gathered_none }
{
    put_read(m, node, opened, position, count, page);
}

// A read waits for a further page: behind the first bytes that are staged, those of the page that came.
pub fn wait_page(
    m: &mut [u8],
    node: usize,
    opened: usize,
    position: usize,
    count: usize,
    page: usize,
    bytes: usize,
    more: &[u8],
)
    requires { (node < NODES) × (opened < open_rows) × (position ≤ FILE_BYTES) × (count ≤ DATA_BYTES)
        × (page ≤ file_pages) × (bytes + length more.now ≤ DATA_BYTES) × IsMemory m.old }
    ensures { Waits m (reading node opened position count page) (gathered_read (take bytes (was m.old).staged
        ++ more.now)) }
{
    let l = bytes + more.len();
    memory::stage(m, bytes, more);
    put_read(m, node, opened, position, count, page);
    memory::put_head(m, header::BYTES, l as u64);
}

// ---- a change of a file's bytes

// A write waits: its bytes are staged, and no page of it is asked yet.
pub fn wait_write(m: &mut [u8], node: usize, opened: usize, position: usize, bytes: &[u8])
    requires { (node < NODES) × (opened < open_rows) × (position ≤ FILE_BYTES) × (length bytes.now ≤ DATA_BYTES)
        × IsMemory m.old }
    ensures m_after { (c : Config) → state_of c m.new ≡ waits c (state_of c m.old)
        (fetching node opened (writing position bytes.now) 0) gathered_none }
    ensures m_value { numbers_in m.new ≡ write_numbers (numbers_in m.old) node opened position
        (length bytes.now) }
    ensures keeps_length { KeepsLength m }
{
    let n = bytes.len();
    memory::stage(m, 0, bytes);
    clear(m);
    memory::put_head(m, header::CALL, calls::FETCHING);
    memory::put_head(m, header::NODE, node as u64);
    memory::put_head(m, header::OPENED, opened as u64);
    memory::put_head(m, header::POSITION, position as u64);
    memory::put_head(m, header::BYTES, n as u64);
}

// A truncation waits: for its page, which is not asked yet, or for the cut that makes the file longer (calls.rt).
pub fn wait_truncate(m: &mut [u8], call: u64, node: usize, opened: usize, size: usize)
    requires { Truncating call × (node < NODES) × (opened < open_rows) × (size ≤ FILE_BYTES) × IsMemory m.old }
    ensures m_after { (c : Config) → state_of c m.new ≡ waits c (state_of c m.old)
        (truncation_on call node opened size) gathered_none }
    ensures m_value { numbers_in m.new ≡ truncate_numbers (numbers_in m.old) call node opened size }
    ensures keeps_length { KeepsLength m }
{
    clear(m);
    memory::put_head(m, header::CALL, call);
    memory::put_head(m, header::NODE, node as u64);
    memory::put_head(m, header::OPENED, opened as u64);
    memory::put_head(m, header::SIZE, size as u64);
}

// A change goes on: what it waits for now (calls.rt), and the page that is asked.
pub fn wait_further(m: &mut [u8], call: u64, page: usize)
    requires { (FETCHING ≤ (numbers_in m.old).call) × ((numbers_in m.old).call ≤ CUTTING) × (FETCHING ≤ call) × (call ≤ CUTTING)
        × (page ≤ file_pages) × IsMemory m.old }
    ensures { Turns m (λ c s. waits c s (pending_in (goes_on call page (numbers_in m.old)) (was m.old).staged)
        s.progress) }
{
    memory::put_head(m, header::RUNNING, 1);
    memory::put_head(m, header::CALL, call);
    memory::put_head(m, header::PAGE, page as u64);
}

// The same with the digest of the page that goes out, staged behind those before.
pub fn wait_sent(m: &mut [u8], call: u64, page: usize, digest: [u8; limits::DIGEST_BYTES])
    requires { (FETCHING ≤ (numbers_in m.old).call) × ((numbers_in m.old).call ≤ CUTTING) × (FETCHING ≤ call) × (call ≤ CUTTING)
        × (page ≤ file_pages) × ((numbers_in m.old).digests < new_digests) × IsMemory m.old }
    ensures { Turns m (λ c s. waits c s (pending_in (goes_on call page (numbers_in m.old)) (was m.old).staged)
        (record { bytes = []; digests = s.progress.digests ++ (digest ∷ []) })) }
{
    let k = number(m, header::DIGESTS, memory::NEW_DIGESTS);
    memory::stage_digest(m, k, digest);
    memory::put_head(m, header::DIGESTS, k as u64 + 1);
    wait_further(m, call, page);
}

// ---- a call ends

// The call is done and the tables are as they were. The call's other numbers mean nothing without it.
pub fn finish(m: &mut [u8])
    requires { IsMemory m.old }
    ensures { Turns m (λ c s. ends c s s.skeleton.tables s.contents) }
{
    memory::put_head(m, header::RUNNING, 1);
    memory::put_head(m, header::CALL, calls::IDLE);
}

// The call is done, over tables that now have these counts.
pub fn rest(m: &mut [u8], nodes: usize, opens: usize)
    requires { (nodes ≤ NODES) × (opens ≤ open_rows) × IsMemory m.old }
    ensures { Turns m (λ c _. resting_state c (view_of nodes opens (was m.old))) }
{
    clear(m);
    memory::put_head(m, header::NODES, nodes as u64);
    memory::put_head(m, header::OPENS, opens as u64);
}

// The call is done, over a table that now has this many maps.
pub fn rest_maps(m: &mut [u8], maps: usize)
    requires { (maps ≤ MAPS) × IsMemory m.old }
    ensures { Turns m (λ c s. remaps c s (take maps (was m.old).maps)) }
{
    memory::put_head(m, header::RUNNING, 1);
    memory::put_head(m, header::CALL, calls::IDLE);
    memory::put_head(m, header::MAPS, maps as u64);
}

// The guard stops for good; the tables are those of before the call.
pub fn stop(m: &mut [u8])
    requires { IsMemory m.old }
    ensures { Turns m stops }
{
    clear(m);
    memory::put_head(m, header::RUNNING, 0);
}
