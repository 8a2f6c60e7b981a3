// Copies of the parts of a code.
ghost use Rattle.std.specs.Prelude.{◌≡◌, ℕ, IfOk};
ghost use Rattle.weak_code.specs.Weakened.{retarget};

use flow_code::Act;
use rr_base::{Layout, List, Site};
use std::alloc::{AllocError, Global};
use word_semantics::LibraryCall;

fn copied_layout(alloc: Global, layout: &Layout) -> Result<Layout, AllocError>
    ensures { IfOk result (λ copy. copy ≡ layout.now) }
{
    Ok(Layout {
        size: layout.size,
        element: layout.element,
        kinds: layout.kinds.copied(alloc)?,
    })
}

fn copied_site(alloc: Global, site: &Site) -> Result<Site, AllocError>
    ensures { IfOk result (λ copy. copy ≡ site.now) }
{
    Ok(Site {
        name: site.name.copied(alloc)?,
        layout: copied_layout(alloc, &site.layout)?,
        at: site.at,
    })
}

pub(crate) fn copied_sites(alloc: Global, sites: &[Site]) -> Result<List<Site>, AllocError>
    ensures { IfOk result (λ copies. copies ≡ sites.now) }
{
    let mut copies = List::new(alloc);
    for site in sites {
        copies.push(copied_site(alloc, site)?)?;
    }
    Ok(copies)
}

fn copied_call(alloc: Global, call: &LibraryCall) -> Result<LibraryCall, AllocError>
    ensures { IfOk result (λ copy. copy ≡ call.now) }
{
    Ok(match call {
        LibraryCall::Create { function } => LibraryCall::Create {
            function: *function,
        },
        LibraryCall::Join => LibraryCall::Join,
        LibraryCall::Exit => LibraryCall::Exit,
        LibraryCall::SelfNumber => LibraryCall::SelfNumber,
        LibraryCall::SameThread => LibraryCall::SameThread,
        LibraryCall::MutexInit => LibraryCall::MutexInit,
        LibraryCall::MutexLock => LibraryCall::MutexLock,
        LibraryCall::MutexUnlock => LibraryCall::MutexUnlock,
        LibraryCall::MutexTryLock => LibraryCall::MutexTryLock,
        LibraryCall::MutexDestroy => LibraryCall::MutexDestroy,
        LibraryCall::CondInit => LibraryCall::CondInit,
        LibraryCall::CondWait => LibraryCall::CondWait,
        LibraryCall::CondSignal => LibraryCall::CondSignal,
        LibraryCall::CondDestroy => LibraryCall::CondDestroy,
        LibraryCall::BarrierInit => LibraryCall::BarrierInit,
        LibraryCall::BarrierWait => LibraryCall::BarrierWait,
        LibraryCall::BarrierDestroy => LibraryCall::BarrierDestroy,
        LibraryCall::RwInit => LibraryCall::RwInit,
        LibraryCall::RwRdLock => LibraryCall::RwRdLock,
        LibraryCall::RwWrLock => LibraryCall::RwWrLock,
        LibraryCall::RwUnlock => LibraryCall::RwUnlock,
        LibraryCall::RwDestroy => LibraryCall::RwDestroy,
        LibraryCall::Free => LibraryCall::Free,
        LibraryCall::GetChar => LibraryCall::GetChar,
        LibraryCall::Print { format } => LibraryCall::Print {
            format: format.copied(alloc)?,
        },
        LibraryCall::PutChar => LibraryCall::PutChar,
    })
}

/// A copy of what an instruction does. Jumps are copied as they are.
pub(crate) fn copied_act(alloc: Global, act: &Act) -> Result<Act, AllocError>
    ensures { IfOk result (λ copy. copy ≡ act.now) }
{
    Ok(match act {
        Act::Compute { into, work } => Act::Compute {
            into: *into,
            work: *work,
        },
        Act::Alloc { into, site, size } => Act::Alloc {
            into: *into,
            site: *site,
            size: *size,
        },
        Act::LoadCell { into, through } => Act::LoadCell {
            into: *into,
            through: *through,
        },
        Act::StoreCell { through, from } => Act::StoreCell {
            through: *through,
            from: *from,
        },
        Act::Mark => Act::Mark,
        Act::Call {
            function,
            arguments,
            into,
        } => Act::Call {
            function: *function,
            arguments: arguments.copied(alloc)?,
            into: *into,
        },
        Act::Library {
            call,
            arguments,
            into,
        } => Act::Library {
            call: copied_call(alloc, call)?,
            arguments: arguments.copied(alloc)?,
            into: *into,
        },
        Act::Jump { to } => Act::Jump { to: *to },
        Act::Branch {
            on,
            then_at,
            else_at,
        } => Act::Branch {
            on: *on,
            then_at: *then_at,
            else_at: *else_at,
        },
        Act::Return { value } => Act::Return { value: *value },
        Act::Take(region) => Act::Take(*region),
        Act::Give(region) => Act::Give(*region),
    })
}
