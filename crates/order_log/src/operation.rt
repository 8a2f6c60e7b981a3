// The names of operations in a log.

ghost use Rattle.std.specs.Prelude.{◌≡◌, ◌∷◌, map};
ghost use Rattle.order_log.specs.Line as line;
ghost use Rattle.order_log.specs.Operations as operations;

use sync_objects::OpName;

/// Each operation by its name; those that stand most often in logs come first.
static OPERATIONS: [(&[u8], OpName); 30] = [
    (b"take", OpName::Take),
    (b"give", OpName::Give),
    (b"lock", OpName::Lock),
    (b"unlock", OpName::Unlock),
    (b"retake", OpName::Retake),
    (b"revoke", OpName::Revoke),
    (b"print", OpName::Print),
    (b"getchar", OpName::GetChar),
    (b"trylock", OpName::TryLock),
    (b"minit", OpName::MutexInit),
    (b"center", OpName::CondEnter),
    (b"cwake", OpName::CondWake),
    (b"signal", OpName::Signal),
    (b"binit", OpName::BarrierInit),
    (b"arrive", OpName::Arrive),
    (b"pass", OpName::Pass),
    (b"draw", OpName::Draw),
    (b"start", OpName::Start),
    (b"begin", OpName::Begin),
    (b"end", OpName::End),
    (b"join", OpName::Join),
    (b"leave", OpName::Leave),
    (b"close", OpName::Close),
    (b"halt", OpName::HaltAll),
    (b"trap", OpName::TrapHere),
    (b"stop", OpName::Stop),
    (b"rdlock", OpName::RdLock),
    (b"wrlock", OpName::WrLock),
    (b"rwunlock", OpName::RwUnlock),
    (b"rwinit", OpName::RwInit),
];

fn op_among(mut table: &[(&[u8], OpName)], text: &[u8]) -> Option<OpName>
    ensures { result ≡ line.op_among (map (λ row. (row.0.now, row.1)) table.entry.now) text.now }
{
    while let [row, rest @ ..] = table {
        if row.0 == text {
            return Some(row.1);
        }
        table = rest;
    }
    None
}

/// The operation of this name.
pub fn op_in(text: &[u8]) -> Option<OpName>
    ensures { result ≡ line.op_among line.op_rows text.now }
{
    op_among(&OPERATIONS, text)
}

/// The name of an operation.
pub fn op_text(op: OpName) -> &'static [u8]
    ensures { result.now ≡ operations.op_text op }
{
    match op {
        OpName::Lock => b"lock",
        OpName::TryLock => b"trylock",
        OpName::Unlock => b"unlock",
        OpName::MutexInit => b"minit",
        OpName::CondEnter => b"center",
        OpName::CondWake => b"cwake",
        OpName::Signal => b"signal",
        OpName::BarrierInit => b"binit",
        OpName::Arrive => b"arrive",
        OpName::Pass => b"pass",
        OpName::RdLock => b"rdlock",
        OpName::WrLock => b"wrlock",
        OpName::RwUnlock => b"rwunlock",
        OpName::RwInit => b"rwinit",
        OpName::Take => b"take",
        OpName::Retake => b"retake",
        OpName::Give => b"give",
        OpName::Revoke => b"revoke",
        OpName::Draw => b"draw",
        OpName::Start => b"start",
        OpName::Begin => b"begin",
        OpName::End => b"end",
        OpName::Join => b"join",
        OpName::Close => b"close",
        OpName::Leave => b"leave",
        OpName::HaltAll => b"halt",
        OpName::TrapHere => b"trap",
        OpName::Stop => b"stop",
        OpName::GetChar => b"getchar",
        OpName::Print => b"print",
    }
}
