//! Composes statements of their parts, each of which stands in a box already.

ghost use Rattle.std.specs.Prelude.{◌≡◌, map};
ghost use Rattle.c_tree.specs.Tree as tree;
ghost use Rattle.c_tree.specs.View.{exp_of, stmt_of, part_of};
ghost use Rattle.c_parser.specs.ForHeads.{for_head_of};

use crate::short::ForHead;
use c_tree::{Expr, Part, Stmt};
use rr_base::{List, Position};

pub(crate) fn block(parts: List<Part>, at: Position) -> Stmt
    ensures { stmt_of result ≡ tree.block (tree.listed_parts (map part_of parts)) at }
{
    Stmt::Block { parts, at }
}

pub(crate) fn branch(test: Box<Expr>, yes: Box<Stmt>, at: Position) -> Stmt
    ensures { stmt_of result ≡ tree.branch (exp_of test.value) (stmt_of yes.value) at }
{
    Stmt::If {
        test: Box::into_inner(test),
        yes,
        no: None,
        at,
    }
}

pub(crate) fn branch_else(test: Box<Expr>, yes: Box<Stmt>, no: Box<Stmt>, at: Position) -> Stmt
    ensures { stmt_of result ≡ tree.branch_else (exp_of test.value) (stmt_of yes.value) (stmt_of no.value) at }
{
    Stmt::If {
        test: Box::into_inner(test),
        yes,
        no: Some(no),
        at,
    }
}

pub(crate) fn while_loop(test: Box<Expr>, body: Box<Stmt>, at: Position) -> Stmt
    ensures { stmt_of result ≡ tree.while_loop (exp_of test.value) (stmt_of body.value) at }
{
    Stmt::While {
        test: Box::into_inner(test),
        body,
        at,
    }
}

pub(crate) fn do_loop(body: Box<Stmt>, test: Box<Expr>, at: Position) -> Stmt
    ensures { stmt_of result ≡ tree.do_loop (stmt_of body.value) (exp_of test.value) at }
{
    Stmt::Do {
        body,
        test: Box::into_inner(test),
        at,
    }
}

pub(crate) fn for_loop(head: ForHead, body: Box<Stmt>, at: Position) -> Stmt
    ensures { let h = for_head_of head in stmt_of result ≡ tree.for_loop h.start h.test h.next (stmt_of body.value) at }
{
    let ForHead { start, test, step } = head;
    Stmt::For {
        start: Box::into_inner(start),
        test: Box::into_inner(test),
        step: Box::into_inner(step),
        body,
        at,
    }
}
