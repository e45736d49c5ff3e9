// A call, whatever its bytes are: read once, and handed to its family. Calls do not touch the answer buffer: what a
// call is done with at once has no bytes.
#![tactic(auto)]

ghost use Rattle.memory.specs.Memories.{IsMemory};
ghost use Rattle.call_reader.specs.Meaning.{made_by, NumberFits};
ghost use Rattle.requests.specs.Room.{HoldsRequest};
ghost use Rattle.path_calls.specs.Begun.{BeginsPath};
ghost use Rattle.call_dispatch.specs.Called.{Calls};

use call_reader::ParsedCall;
use limits::kinds;
use outcomes::Outcome;
use refusals::Refusal;

// A call by path, by its kind. A memory without a node holds no guard.
fn begin_by_path(m: &mut [u8], kind: u8, number: u8, path: &[u8], request: &mut [u8]) -> Outcome
    requires { NumberFits kind number × IsMemory m.old × HoldsRequest request.old }
    ensures { BeginsPath m request path.now (made_by kind number) result }
{
    if guard_state::node_count(m) == 0 {
        return Outcome::Refused(Refusal::ShortBuffer);
    }
    match kind {
        kinds::CREATE | kinds::MKDIR => creations::begin_new(m, kind, number, path, request),
        kinds::OPEN => opens::begin_open(m, number, path, request),
        kinds::REMOVE => removals::begin_remove(m, path, request),
        kinds::RMDIR => removals::begin_rmdir(m, path, request),
        kinds::CHMOD => attributes::begin_chmod(m, number, path, request),
        kinds::READDIR => listings::begin_readdir(m, path, request),
        _ => attributes::begin_stat(m, path, request),
    }
}

pub fn begin_call(m: &mut [u8], call: &[u8], request: &mut [u8]) -> Outcome
    requires { IsMemory m.old × HoldsRequest request.old }
    ensures { Calls m request call.now result }
{
    let Some(parsed) = call_reader::read_call(call) else {
        return Outcome::Refused(Refusal::Invalid);
    };
    match parsed {
        ParsedCall::ByPath {
            kind,
            number,
            start,
        } => begin_by_path(m, kind, number, &call[start..], request),
        ParsedCall::Close { handle } => opens::begin_close(m, handle, request),
        ParsedCall::Seek { handle, position } => opens::finish_seek(m, handle, position),
        ParsedCall::Read { handle, count } => reads::begin_read(m, handle, count as usize, request),
        ParsedCall::Write { handle, start } => writes::begin_write(
            m,
            handle,
            &call[start..],
            request,
        ),
        ParsedCall::Truncate { handle, size } => truncations::begin_truncate(
            m, handle, size, request,
        ),
        ParsedCall::Map { size } => maps::begin_map(m, size, request),
        ParsedCall::Unmap { address } => maps::begin_unmap(m, address, request),
        ParsedCall::Rename { second } => renames::begin_rename(
            m,
            &call[2..second],
            &call[second..],
            request,
        ),
    }
}
