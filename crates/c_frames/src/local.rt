//! The locals that statements declare (C99 6.8), in the order of the text.
ghost use Rattle.std.specs.Prelude.{◌≡◌, ◌++◌, OnOk, map};
ghost use Rattle.c_tree.specs.Tree.{listed_parts};
ghost use Rattle.c_tree.specs.View as tree;
ghost use Rattle.c_frames.specs.Locals as spec;

use c_locals::is_kept_declared;
use c_names::declared_name;
use c_rules::name_place;
use c_tree::{Declaration, Declarator, ForStart, Item, Part, Specifier, Stmt};
use rr_base::{List, Position};
use std::alloc::AllocError;

/// A formal or a local of a function.
#[derive(Clone, Copy, Debug, PartialEq, Eq)]
pub struct Local {
    /// Whether it is kept in cells, and not in a register.
    pub is_kept: bool,
    /// Whether it is a pointer.
    pub is_pointer: bool,
    /// The place of its name; of a formal without a name that of its first token.
    pub at: Position,
}

fn local_declared(specifier: &Specifier, declarator: &Declarator) -> Local
    ensures { result ≡ spec.local_declared specifier.now (tree.declared_of declarator.now) }
{
    let is_pointer = match declarator {
        Declarator::Object { stars, .. } => *stars > 0,
        Declarator::Pointer { .. } => false,
    };
    Local {
        is_kept: is_kept_declared(specifier, declarator),
        is_pointer,
        at: name_place(declared_name(declarator)),
    }
}

fn local_of(specifier: &Specifier, item: &Item) -> Local
    ensures { result ≡ spec.local_of specifier.now (tree.object_of item.now) }
{
    match item {
        Item::Plain(declarator) => local_declared(specifier, declarator),
        Item::Initialised { declarator, .. } => local_declared(specifier, declarator),
    }
}

fn push_declares_locals(declaration: &Declaration, out: &mut List<Local>) -> Result<(), AllocError>
    ensures { OnOk result (out.new ≡ out.old ++ spec.declares_locals (tree.declares_of declaration.now)) }
{
    for item in declaration.items.as_slice() {
        out.push(local_of(&declaration.specifier, item))?;
    }
    Ok(())
}

fn push_start_locals(start: &ForStart, out: &mut List<Local>) -> Result<(), AllocError>
    ensures { OnOk result (out.new ≡ out.old ++ spec.start_locals (tree.start_of start.now)) }
{
    match start {
        ForStart::Declares(declaration) => push_declares_locals(declaration, out),
        ForStart::Computes(_) => Ok(()),
    }
}

/// The locals of a statement, in the order of the text.
#[cycle(statement_locals)]
fn push_statement_locals(stmt: &Stmt, out: &mut List<Local>) -> Result<(), AllocError>
    ensures { OnOk result (out.new ≡ out.old ++ spec.statement_locals (tree.stmt_of stmt.now)) }
{
    match stmt {
        Stmt::Block { parts, .. } => push_parts_locals(parts.as_slice(), out),
        Stmt::Expression { .. }
        | Stmt::Break { .. }
        | Stmt::Continue { .. }
        | Stmt::Return { .. } => Ok(()),
        Stmt::If { yes, no, .. } => {
            push_statement_locals(yes, out)?;
            match no {
                None => Ok(()),
                Some(no) => push_statement_locals(no, out),
            }
        }
        Stmt::While { body, .. } => push_statement_locals(body, out),
        Stmt::Do { body, .. } => push_statement_locals(body, out),
        Stmt::For { start, body, .. } => {
            push_start_locals(start, out)?;
            push_statement_locals(body, out)
        }
    }
}

/// The locals of what stands in a block, those of each part after those of the parts before it.
#[cycle(statement_locals)]
pub fn push_parts_locals(parts: &[Part], out: &mut List<Local>) -> Result<(), AllocError>
    ensures { OnOk result (out.new ≡ out.old ++ spec.parts_locals (listed_parts (map tree.part_of parts.now))) }
{
    for part in parts {
        match part {
            Part::Declares(declaration) => push_declares_locals(declaration, out)?,
            Part::Does(stmt) => push_statement_locals(stmt, out)?,
        }
    }
    Ok(())
}
