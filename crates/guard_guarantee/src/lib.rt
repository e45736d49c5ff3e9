// Where code and theorem meet: the entries are the links of the chains that the claims speak of (specs/Chains.antt).
// Each function is one entry; its promise is the link, so that an entry which promised less would not be proved here.
#![tactic(auto)]

ghost use Rattle.std.specs.Prelude.{Bool, true, false, [], length};
ghost use Rattle.filesystem.specs.Image.{current};
ghost use Rattle.rules.specs.Skeleton.{call, reply, load};
ghost use Rattle.guard_guarantee.specs.Chains.{answer_read, seen_as, seen_saved, Link, Begins};

pub fn begin(memory: &mut [u8]) -> guard::GuardOutcome
    ensures { Begins memory.old memory.new }
{
    guard::guard_entry_fresh(memory)
}

pub fn link_call(
    memory: &mut [u8],
    bytes: &[u8],
    answer: &mut [u8],
    request: &mut [u8],
) -> guard::GuardOutcome
    ensures { Link memory.old memory.new false
        (seen_as (call bytes.now (length answer.old) (length request.old))
        (answer_read result answer.new request.new)) }
{
    guard::guard_entry_call(memory, bytes, answer, request)
}

pub fn link_reader_call(
    memory: &mut [u8],
    bytes: &[u8],
    answer: &mut [u8],
    request: &mut [u8],
) -> guard::GuardOutcome
    ensures { Link memory.old memory.new true
        (seen_as (call bytes.now (length answer.old) (length request.old))
        (answer_read result answer.new request.new)) }
{
    guard::reader::guard_entry_reader_call(memory, bytes, answer, request)
}

pub fn link_reply(
    memory: &mut [u8],
    bytes: &[u8],
    answer: &mut [u8],
    request: &mut [u8],
) -> guard::GuardOutcome
    ensures { (b : Bool) → Link memory.old memory.new b
        (seen_as (reply bytes.now (length answer.old) (length request.old))
        (answer_read result answer.new request.new)) }
{
    guard::guard_entry_reply(memory, bytes, answer, request)
}

pub fn link_save(memory: &mut [u8], image: &mut [u8], digest: &mut [u8; 32]) -> guard::GuardOutcome
    ensures { (b : Bool) → Link memory.old memory.new b
        (seen_saved (length image.old) (answer_read result image.new []) digest.new) }
{
    guard::guard_entry_save(memory, image, digest)
}

pub fn link_load(memory: &mut [u8], image: &[u8], digest: &[u8]) -> guard::GuardOutcome
    ensures { (b : Bool) → Link memory.old memory.new b
        (seen_as (load current image.now digest.now) (answer_read result [] [])) }
{
    guard::guard_entry_load(memory, image, digest)
}
