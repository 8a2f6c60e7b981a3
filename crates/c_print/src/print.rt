ghost use Rattle.std.specs.Prelude.{◌≡◌, ◌++◌, [], ◌∷◌, IfOk, OnOk, map};
ghost use Rattle.c_tree.specs.View.{exp_of, maybe_of, formal_of, formals_of, declared_of, init_of, object_of, declares_of, start_of, stmt_of, part_of, code_of, fields_of, outer_of, program_of};
ghost use Rattle.c_tree.specs.Tree.{listed, listed_row, listed_inits, listed_parts};
ghost use Rattle.c_print.specs.Kinds as spec;
ghost use Rattle.c_lexer.specs.declared.token.Kind.TheVariants as kind;
ghost use Rattle.c_lexer.specs.declared.token.Word.TheVariants as word;
ghost use Rattle.c_lexer.specs.declared.token.Punct.TheVariants as punct;

use c_lexer::{Kind, Punct, Word};
use c_tree::{
    AssignOp, BinaryOp, Body, CType, Declaration, Declarator, Expr, External, ForStart, Initial,
    Item, Member, Name, Param, Params, Part, PrefixOp, Program, Specifier, Stmt,
};
use rr_base::{Bytes, List};
use std::alloc::{AllocError, Global};

fn prefix_punct(op: PrefixOp) -> Punct
    ensures { result ≡ spec.prefix_punct op }
{
    match op {
        PrefixOp::Address => Punct::And,
        PrefixOp::Indirect => Punct::Star,
        PrefixOp::Plus => Punct::Plus,
        PrefixOp::Minus => Punct::Minus,
        PrefixOp::Not => Punct::Not,
        PrefixOp::Complement => Punct::Tilde,
        PrefixOp::Increment => Punct::PlusPlus,
        PrefixOp::Decrement => Punct::MinusMinus,
    }
}

fn binary_punct(op: BinaryOp) -> Punct
    ensures { result ≡ spec.binary_punct op }
{
    match op {
        BinaryOp::LogicalOr => Punct::OrOr,
        BinaryOp::LogicalAnd => Punct::AndAnd,
        BinaryOp::Or => Punct::Or,
        BinaryOp::Xor => Punct::Caret,
        BinaryOp::And => Punct::And,
        BinaryOp::Equal => Punct::EqualEqual,
        BinaryOp::NotEqual => Punct::NotEqual,
        BinaryOp::Less => Punct::Less,
        BinaryOp::Greater => Punct::Greater,
        BinaryOp::LessEqual => Punct::LessEqual,
        BinaryOp::GreaterEqual => Punct::GreaterEqual,
        BinaryOp::ShiftLeft => Punct::ShiftLeft,
        BinaryOp::ShiftRight => Punct::ShiftRight,
        BinaryOp::Add => Punct::Plus,
        BinaryOp::Subtract => Punct::Minus,
        BinaryOp::Multiply => Punct::Star,
        BinaryOp::Divide => Punct::Slash,
        BinaryOp::Remainder => Punct::Percent,
    }
}

fn assign_punct(op: AssignOp) -> Punct
    ensures { result ≡ spec.assign_punct op }
{
    match op {
        AssignOp::Assign => Punct::Assign,
        AssignOp::Add => Punct::PlusAssign,
        AssignOp::Subtract => Punct::MinusAssign,
        AssignOp::Multiply => Punct::StarAssign,
        AssignOp::Divide => Punct::SlashAssign,
        AssignOp::Remainder => Punct::PercentAssign,
        AssignOp::And => Punct::AndAssign,
        AssignOp::Or => Punct::OrAssign,
        AssignOp::Xor => Punct::CaretAssign,
        AssignOp::ShiftLeft => Punct::ShiftLeftAssign,
        AssignOp::ShiftRight => Punct::ShiftRightAssign,
    }
}

fn put_punct(out: &mut List<Kind>, punct: Punct) -> Result<(), AllocError>
    ensures { OnOk result (out.new ≡ out.old ++ kind.Punct punct ∷ []) }
{
    out.push(Kind::Punct(punct))
}

fn put_word(out: &mut List<Kind>, word: Word) -> Result<(), AllocError>
    ensures { OnOk result (out.new ≡ out.old ++ kind.Word word ∷ []) }
{
    out.push(Kind::Word(word))
}

fn put_name(alloc: Global, out: &mut List<Kind>, name: &Bytes) -> Result<(), AllocError>
    ensures { OnOk result (out.new ≡ out.old ++ kind.Name name.now ∷ []) }
{
    let copy = List::from_slice(alloc, name.as_slice())?;
    out.push(Kind::Name(copy))
}

fn put_maybe_name(
    alloc: Global,
    out: &mut List<Kind>,
    name: &Option<Name>,
) -> Result<(), AllocError>
    ensures { OnOk result (out.new ≡ out.old ++ spec.named_kinds name.now) }
{
    match name {
        None => Ok(()),
        Some(name) => put_name(alloc, out, &name.text),
    }
}

fn put_text(alloc: Global, out: &mut List<Kind>, bytes: &Bytes) -> Result<(), AllocError>
    ensures { OnOk result (out.new ≡ out.old ++ kind.Text bytes.now ∷ []) }
{
    let copy = List::from_slice(alloc, bytes.as_slice())?;
    out.push(Kind::Text(copy))
}

fn put_stars(out: &mut List<Kind>, stars: usize) -> Result<(), AllocError>
    ensures { OnOk result (out.new ≡ out.old ++ spec.stars_kinds stars) }
{
    let mut left = stars;
    while left > 0 {
        put_punct(out, Punct::Star)?;
        left -= 1;
    }
    Ok(())
}

fn print_specifier(
    alloc: Global,
    out: &mut List<Kind>,
    specifier: &Specifier,
) -> Result<(), AllocError>
    ensures { OnOk result (out.new ≡ out.old ++ spec.specifier_kinds specifier.now) }
{
    match specifier {
        Specifier::Int { .. } => put_word(out, Word::Int),
        Specifier::Long { second, int, .. } => print_long(out, *second, *int),
        Specifier::Void { .. } => put_word(out, Word::Void),
        Specifier::Struct { name, .. } => {
            put_word(out, Word::Struct)?;
            put_name(alloc, out, &name.text)
        }
        Specifier::PthreadT { .. } => put_word(out, Word::PthreadT),
        Specifier::PthreadMutexT { .. } => put_word(out, Word::PthreadMutexT),
        Specifier::PthreadCondT { .. } => put_word(out, Word::PthreadCondT),
        Specifier::PthreadBarrierT { .. } => put_word(out, Word::PthreadBarrierT),
        Specifier::PthreadRwlockT { .. } => put_word(out, Word::PthreadRwlockT),
    }
}

fn print_long(out: &mut List<Kind>, second: bool, int: bool) -> Result<(), AllocError>
    ensures { OnOk result (out.new ≡ out.old ++ spec.w word.Long ∷ (spec.if_there second (spec.w word.Long) ++ spec.if_there int (spec.w word.Int))) }
{
    put_word(out, Word::Long)?;
    if second {
        put_word(out, Word::Long)?;
    }
    if int {
        put_word(out, Word::Int)?;
    }
    Ok(())
}

fn print_type(alloc: Global, out: &mut List<Kind>, of: &CType) -> Result<(), AllocError>
    ensures { OnOk result (out.new ≡ out.old ++ spec.type_kinds of.now) }
{
    print_specifier(alloc, out, &of.specifier)?;
    put_stars(out, of.stars)
}

fn print_enclosed_type(alloc: Global, out: &mut List<Kind>, of: &CType) -> Result<(), AllocError>
    ensures { OnOk result (out.new ≡ out.old ++ spec.p punct.OpenParen ∷ (spec.type_kinds of.now ++ spec.p punct.CloseParen ∷ [])) }
{
    put_punct(out, Punct::OpenParen)?;
    print_type(alloc, out, of)?;
    put_punct(out, Punct::CloseParen)
}

#[cycle(print)]
fn print_expr(alloc: Global, out: &mut List<Kind>, e: &Expr) -> Result<(), AllocError>
    ensures { OnOk result (out.new ≡ out.old ++ spec.exp_kinds (exp_of e.now)) }
{
    match e {
        Expr::Comma { first, rest, .. } => {
            print_expr(alloc, out, first)?;
            print_rest(alloc, out, rest.as_slice())
        }
        Expr::Assign {
            left,
            op,
            right,
            ..
        } => {
            print_expr(alloc, out, left)?;
            put_punct(out, assign_punct(*op))?;
            print_expr(alloc, out, right)
        }
        Expr::Conditional { test, yes, no, .. } => {
            print_expr(alloc, out, test)?;
            put_punct(out, Punct::Question)?;
            print_expr(alloc, out, yes)?;
            put_punct(out, Punct::Colon)?;
            print_expr(alloc, out, no)
        }
        Expr::Binary {
            left,
            op,
            right,
            ..
        } => {
            print_expr(alloc, out, left)?;
            put_punct(out, binary_punct(*op))?;
            print_expr(alloc, out, right)
        }
        Expr::Prefix { op, operand, .. } => {
            put_punct(out, prefix_punct(*op))?;
            print_expr(alloc, out, operand)
        }
        Expr::SizeofExpr { operand, .. } => {
            put_word(out, Word::Sizeof)?;
            print_expr(alloc, out, operand)
        }
        Expr::SizeofType { of, .. } => {
            put_word(out, Word::Sizeof)?;
            print_enclosed_type(alloc, out, of)
        }
        Expr::Cast { to, operand, .. } => {
            print_enclosed_type(alloc, out, to)?;
            print_expr(alloc, out, operand)
        }
        Expr::Index { base, index, .. } => {
            print_expr(alloc, out, base)?;
            print_enclosed(alloc, out, Punct::OpenBracket, index, Punct::CloseBracket)
        }
        Expr::Member { base, name, .. } => print_selection(alloc, out, base, Punct::Dot, name),
        Expr::Arrow { base, name, .. } => print_selection(alloc, out, base, Punct::Arrow, name),
        Expr::PostIncrement { operand, .. } => {
            print_expr(alloc, out, operand)?;
            put_punct(out, Punct::PlusPlus)
        }
        Expr::PostDecrement { operand, .. } => {
            print_expr(alloc, out, operand)?;
            put_punct(out, Punct::MinusMinus)
        }
        Expr::Name { name, .. } => put_name(alloc, out, name),
        Expr::Call {
            name,
            arguments,
            ..
        } => print_call(alloc, out, name, arguments.as_slice()),
        Expr::Number { value, .. } => out.push(Kind::Number(*value)),
        Expr::Letter { value, .. } => out.push(Kind::Letter(*value)),
        Expr::Text { bytes, .. } => put_text(alloc, out, bytes),
        Expr::Null { .. } => put_word(out, Word::Null),
        Expr::Paren { inner, .. } => {
            print_enclosed(alloc, out, Punct::OpenParen, inner, Punct::CloseParen)
        }
    }
}

// An expression in parentheses or brackets.
#[cycle(print)]
fn print_enclosed(
    alloc: Global,
    out: &mut List<Kind>,
    opening: Punct,
    inner: &Expr,
    closing: Punct,
) -> Result<(), AllocError>
    ensures { OnOk result (out.new ≡ out.old ++ spec.p opening ∷ (spec.exp_kinds (exp_of inner.now) ++ spec.p closing ∷ [])) }
{
    put_punct(out, opening)?;
    print_expr(alloc, out, inner)?;
    put_punct(out, closing)
}

// A member after a point or an arrow.
#[cycle(print)]
fn print_selection(
    alloc: Global,
    out: &mut List<Kind>,
    base: &Expr,
    mark: Punct,
    name: &Name,
) -> Result<(), AllocError>
    ensures { OnOk result (out.new ≡ out.old ++ (spec.exp_kinds (exp_of base.now) ++ spec.p mark ∷ kind.Name name.now.text ∷ [])) }
{
    print_expr(alloc, out, base)?;
    put_punct(out, mark)?;
    put_name(alloc, out, &name.text)
}

#[cycle(print)]
fn print_call(
    alloc: Global,
    out: &mut List<Kind>,
    name: &Bytes,
    arguments: &[Expr],
) -> Result<(), AllocError>
    ensures { OnOk result (out.new ≡ out.old ++ kind.Name name.now ∷ spec.p punct.OpenParen ∷ (spec.exps_kinds (listed (map exp_of arguments.now)) ++ spec.p punct.CloseParen ∷ [])) }
{
    put_name(alloc, out, name)?;
    put_punct(out, Punct::OpenParen)?;
    print_arguments(alloc, out, arguments)?;
    put_punct(out, Punct::CloseParen)
}

#[cycle(print)]
fn print_arguments(
    alloc: Global,
    out: &mut List<Kind>,
    arguments: &[Expr],
) -> Result<(), AllocError>
    ensures { OnOk result (out.new ≡ out.old ++ spec.exps_kinds (listed (map exp_of arguments.now))) }
{
    let [first, rest @ ..] = arguments else {
        return Ok(());
    };
    print_expr(alloc, out, first)?;
    for argument in rest {
        put_punct(out, Punct::Comma)?;
        print_expr(alloc, out, argument)?;
    }
    Ok(())
}

// Each with a comma before it.
#[cycle(print)]
fn print_rest(alloc: Global, out: &mut List<Kind>, rest: &[Expr]) -> Result<(), AllocError>
    ensures { OnOk result (out.new ≡ out.old ++ spec.rest_kinds (listed (map exp_of rest.now))) }
{
    for e in rest {
        put_punct(out, Punct::Comma)?;
        print_expr(alloc, out, e)?;
    }
    Ok(())
}

fn print_maybe(alloc: Global, out: &mut List<Kind>, e: &Option<Expr>) -> Result<(), AllocError>
    ensures { OnOk result (out.new ≡ out.old ++ spec.maybe_kinds (maybe_of e.now)) }
{
    match e {
        None => Ok(()),
        Some(e) => print_expr(alloc, out, e),
    }
}

#[cycle(print_params)]
fn print_param(alloc: Global, out: &mut List<Kind>, param: &Param) -> Result<(), AllocError>
    ensures { OnOk result (out.new ≡ out.old ++ spec.formal_kinds (formal_of param.now)) }
{
    match param {
        Param::Object {
            specifier,
            stars,
            name,
            ..
        } => {
            print_specifier(alloc, out, specifier)?;
            put_stars(out, *stars)?;
            put_maybe_name(alloc, out, name)
        }
        Param::Pointer {
            specifier,
            stars,
            name,
            params,
            ..
        } => {
            print_specifier(alloc, out, specifier)?;
            print_pointer(alloc, out, *stars, name, params)
        }
    }
}

// A pointer to a function, without the specifier of its result.
#[cycle(print_params)]
fn print_pointer(
    alloc: Global,
    out: &mut List<Kind>,
    stars: usize,
    name: &Name,
    params: &Params,
) -> Result<(), AllocError>
    ensures { OnOk result (out.new ≡ out.old ++ spec.pointer_kinds stars name.now (spec.formals_kinds (formals_of params.now))) }
{
    put_stars(out, stars)?;
    put_punct(out, Punct::OpenParen)?;
    put_punct(out, Punct::Star)?;
    put_name(alloc, out, &name.text)?;
    put_punct(out, Punct::CloseParen)?;
    put_punct(out, Punct::OpenParen)?;
    print_params(alloc, out, params)?;
    put_punct(out, Punct::CloseParen)
}

#[cycle(print_params)]
fn print_params(alloc: Global, out: &mut List<Kind>, params: &Params) -> Result<(), AllocError>
    ensures { OnOk result (out.new ≡ out.old ++ spec.formals_kinds (formals_of params.now)) }
{
    match params {
        Params::Nothing => Ok(()),
        Params::Void => put_word(out, Word::Void),
        Params::Listed(params) => print_listed(alloc, out, params.as_slice()),
    }
}

#[cycle(print_params)]
fn print_listed(alloc: Global, out: &mut List<Kind>, params: &[Param]) -> Result<(), AllocError>
    ensures { OnOk result (out.new ≡ out.old ++ spec.formal_row_kinds (listed_row (map formal_of params.now))) }
{
    let [first, rest @ ..] = params else {
        return Ok(());
    };
    print_param(alloc, out, first)?;
    for param in rest {
        put_punct(out, Punct::Comma)?;
        print_param(alloc, out, param)?;
    }
    Ok(())
}

fn print_declarator(
    alloc: Global,
    out: &mut List<Kind>,
    declarator: &Declarator,
) -> Result<(), AllocError>
    ensures { OnOk result (out.new ≡ out.old ++ spec.declared_kinds (declared_of declarator.now)) }
{
    match declarator {
        Declarator::Object {
            stars,
            name,
            lengths,
        } => {
            put_stars(out, *stars)?;
            put_name(alloc, out, &name.text)?;
            print_lengths(alloc, out, lengths.as_slice())
        }
        Declarator::Pointer {
            stars,
            name,
            params,
        } => print_pointer(alloc, out, *stars, name, params),
    }
}

fn print_lengths(alloc: Global, out: &mut List<Kind>, lengths: &[Expr]) -> Result<(), AllocError>
    ensures { OnOk result (out.new ≡ out.old ++ spec.length_kinds (map exp_of lengths.now)) }
{
    for length in lengths {
        put_punct(out, Punct::OpenBracket)?;
        print_expr(alloc, out, length)?;
        put_punct(out, Punct::CloseBracket)?;
    }
    Ok(())
}

// The brace after initials, and maybe a comma before it.
fn put_closing(out: &mut List<Kind>, comma: bool) -> Result<(), AllocError>
    ensures { OnOk result (out.new ≡ out.old ++ (spec.if_there comma (spec.p punct.Comma) ++ spec.p punct.CloseBrace ∷ [])) }
{
    if comma {
        put_punct(out, Punct::Comma)?;
    }
    put_punct(out, Punct::CloseBrace)
}

#[cycle(print_initial)]
fn print_initial(alloc: Global, out: &mut List<Kind>, initial: &Initial) -> Result<(), AllocError>
    ensures { OnOk result (out.new ≡ out.old ++ spec.init_kinds (init_of initial.now)) }
{
    match initial {
        Initial::Value(e) => print_expr(alloc, out, e),
        Initial::Braces { parts, comma, .. } => {
            put_punct(out, Punct::OpenBrace)?;
            print_initials(alloc, out, parts.as_slice())?;
            put_closing(out, *comma)
        }
        Initial::Mutex { .. } => put_word(out, Word::PthreadMutexInitializer),
        Initial::Cond { .. } => put_word(out, Word::PthreadCondInitializer),
        Initial::RwLock { .. } => put_word(out, Word::PthreadRwlockInitializer),
    }
}

#[cycle(print_initial)]
fn print_initials(
    alloc: Global,
    out: &mut List<Kind>,
    initials: &[Initial],
) -> Result<(), AllocError>
    ensures { OnOk result (out.new ≡ out.old ++ spec.inits_kinds (listed_inits (map init_of initials.now))) }
{
    let [first, rest @ ..] = initials else {
        return Ok(());
    };
    print_initial(alloc, out, first)?;
    for initial in rest {
        put_punct(out, Punct::Comma)?;
        print_initial(alloc, out, initial)?;
    }
    Ok(())
}

fn print_item(alloc: Global, out: &mut List<Kind>, item: &Item) -> Result<(), AllocError>
    ensures { OnOk result (out.new ≡ out.old ++ spec.object_kinds (object_of item.now)) }
{
    match item {
        Item::Plain(declarator) => print_declarator(alloc, out, declarator),
        Item::Initialised {
            declarator,
            initial,
            ..
        } => {
            print_declarator(alloc, out, declarator)?;
            put_punct(out, Punct::Assign)?;
            print_initial(alloc, out, initial)
        }
    }
}

fn print_items(alloc: Global, out: &mut List<Kind>, items: &[Item]) -> Result<(), AllocError>
    ensures { OnOk result (out.new ≡ out.old ++ spec.objects_kinds (map object_of items.now)) }
{
    let [first, rest @ ..] = items else {
        return Ok(());
    };
    print_item(alloc, out, first)?;
    for item in rest {
        put_punct(out, Punct::Comma)?;
        print_item(alloc, out, item)?;
    }
    Ok(())
}

fn print_declaration(
    alloc: Global,
    out: &mut List<Kind>,
    declaration: &Declaration,
) -> Result<(), AllocError>
    ensures { OnOk result (out.new ≡ out.old ++ spec.declares_kinds (declares_of declaration.now)) }
{
    print_specifier(alloc, out, &declaration.specifier)?;
    print_items(alloc, out, declaration.items.as_slice())?;
    put_punct(out, Punct::Semicolon)
}

fn print_start(alloc: Global, out: &mut List<Kind>, start: &ForStart) -> Result<(), AllocError>
    ensures { OnOk result (out.new ≡ out.old ++ spec.start_kinds (start_of start.now)) }
{
    match start {
        ForStart::Declares(declaration) => print_declaration(alloc, out, declaration),
        ForStart::Computes(value) => {
            print_maybe(alloc, out, value)?;
            put_punct(out, Punct::Semicolon)
        }
    }
}

// The expression in the parentheses of `if` and its kin.
fn print_test(
    alloc: Global,
    out: &mut List<Kind>,
    word: Word,
    test: &Expr,
) -> Result<(), AllocError>
    ensures { OnOk result (out.new ≡ out.old ++ spec.w word ∷ spec.p punct.OpenParen ∷ (spec.exp_kinds (exp_of test.now) ++ spec.p punct.CloseParen ∷ [])) }
{
    put_word(out, word)?;
    put_punct(out, Punct::OpenParen)?;
    print_expr(alloc, out, test)?;
    put_punct(out, Punct::CloseParen)
}

// What stands in the parentheses of a `for`, with these.
fn print_for(
    alloc: Global,
    out: &mut List<Kind>,
    start: &ForStart,
    test: &Option<Expr>,
    step: &Option<Expr>,
) -> Result<(), AllocError>
    ensures { OnOk result (out.new ≡ out.old ++ spec.p punct.OpenParen ∷ (spec.start_kinds (start_of start.now) ++ (spec.maybe_kinds (maybe_of test.now) ++ spec.p punct.Semicolon ∷ (spec.maybe_kinds (maybe_of step.now) ++ spec.p punct.CloseParen ∷ [])))) }
{
    put_punct(out, Punct::OpenParen)?;
    print_start(alloc, out, start)?;
    print_maybe(alloc, out, test)?;
    put_punct(out, Punct::Semicolon)?;
    print_maybe(alloc, out, step)?;
    put_punct(out, Punct::CloseParen)
}

#[cycle(print_stmt)]
fn print_stmt(alloc: Global, out: &mut List<Kind>, stmt: &Stmt) -> Result<(), AllocError>
    ensures { OnOk result (out.new ≡ out.old ++ spec.stmt_kinds (stmt_of stmt.now)) }
{
    match stmt {
        Stmt::Block { parts, .. } => {
            put_punct(out, Punct::OpenBrace)?;
            print_parts(alloc, out, parts.as_slice())?;
            put_punct(out, Punct::CloseBrace)
        }
        Stmt::Expression { value, .. } => {
            print_maybe(alloc, out, value)?;
            put_punct(out, Punct::Semicolon)
        }
        Stmt::Break { .. } => {
            put_word(out, Word::Break)?;
            put_punct(out, Punct::Semicolon)
        }
        Stmt::Continue { .. } => {
            put_word(out, Word::Continue)?;
            put_punct(out, Punct::Semicolon)
        }
        Stmt::Return { value, .. } => {
            put_word(out, Word::Return)?;
            print_maybe(alloc, out, value)?;
            put_punct(out, Punct::Semicolon)
        }
        Stmt::If { test, yes, no, .. } => {
            print_test(alloc, out, Word::If, test)?;
            print_stmt(alloc, out, yes)?;
            match no {
                None => Ok(()),
                Some(no) => {
                    put_word(out, Word::Else)?;
                    print_stmt(alloc, out, no)
                }
            }
        }
        Stmt::While { test, body, .. } => {
            print_test(alloc, out, Word::While, test)?;
            print_stmt(alloc, out, body)
        }
        Stmt::Do { body, test, .. } => {
            put_word(out, Word::Do)?;
            print_stmt(alloc, out, body)?;
            print_test(alloc, out, Word::While, test)?;
            put_punct(out, Punct::Semicolon)
        }
        Stmt::For {
            start,
            test,
            step,
            body,
            ..
        } => {
            put_word(out, Word::For)?;
            print_for(alloc, out, start, test, step)?;
            print_stmt(alloc, out, body)
        }
    }
}

#[cycle(print_stmt)]
fn print_parts(alloc: Global, out: &mut List<Kind>, parts: &[Part]) -> Result<(), AllocError>
    ensures { OnOk result (out.new ≡ out.old ++ spec.parts_kinds (listed_parts (map part_of parts.now))) }
{
    for part in parts {
        match part {
            Part::Declares(declaration) => print_declaration(alloc, out, declaration)?,
            Part::Does(stmt) => print_stmt(alloc, out, stmt)?,
        }
    }
    Ok(())
}

fn print_body(alloc: Global, out: &mut List<Kind>, body: &Body) -> Result<(), AllocError>
    ensures { OnOk result (out.new ≡ out.old ++ spec.code_kinds (code_of body.now)) }
{
    match body {
        Body::Block { parts, .. } => {
            put_punct(out, Punct::OpenBrace)?;
            print_parts(alloc, out, parts.as_slice())?;
            put_punct(out, Punct::CloseBrace)
        }
        Body::Prototype => put_punct(out, Punct::Semicolon),
    }
}

fn print_member(alloc: Global, out: &mut List<Kind>, member: &Member) -> Result<(), AllocError>
    ensures { OnOk result (out.new ≡ out.old ++ spec.fields_kinds (fields_of member.now)) }
{
    print_specifier(alloc, out, &member.specifier)?;
    print_declarators(alloc, out, member.declarators.as_slice())?;
    put_punct(out, Punct::Semicolon)
}

fn print_members(alloc: Global, out: &mut List<Kind>, members: &[Member]) -> Result<(), AllocError>
    ensures { OnOk result (out.new ≡ out.old ++ spec.all_fields_kinds (map fields_of members.now)) }
{
    for member in members {
        print_member(alloc, out, member)?;
    }
    Ok(())
}

fn print_declarators(
    alloc: Global,
    out: &mut List<Kind>,
    declarators: &[Declarator],
) -> Result<(), AllocError>
    ensures { OnOk result (out.new ≡ out.old ++ spec.all_declared_kinds (map declared_of declarators.now)) }
{
    let [first, rest @ ..] = declarators else {
        return Ok(());
    };
    print_declarator(alloc, out, first)?;
    for declarator in rest {
        put_punct(out, Punct::Comma)?;
        print_declarator(alloc, out, declarator)?;
    }
    Ok(())
}

fn put_static(out: &mut List<Kind>, is_static: bool) -> Result<(), AllocError>
    ensures { OnOk result (out.new ≡ out.old ++ spec.if_there is_static (spec.w word.Static)) }
{
    if is_static {
        put_word(out, Word::Static)?;
    }
    Ok(())
}

fn print_external(
    alloc: Global,
    out: &mut List<Kind>,
    external: &External,
) -> Result<(), AllocError>
    ensures { OnOk result (out.new ≡ out.old ++ spec.outer_kinds (outer_of external.now)) }
{
    match external {
        External::Struct { name, members } => {
            put_word(out, Word::Struct)?;
            put_name(alloc, out, &name.text)?;
            put_punct(out, Punct::OpenBrace)?;
            print_members(alloc, out, members.as_slice())?;
            put_punct(out, Punct::CloseBrace)?;
            put_punct(out, Punct::Semicolon)
        }
        External::Function {
            is_static,
            specifier,
            stars,
            name,
            params,
            body,
        } => {
            put_static(out, *is_static)?;
            print_specifier(alloc, out, specifier)?;
            put_stars(out, *stars)?;
            put_name(alloc, out, &name.text)?;
            put_punct(out, Punct::OpenParen)?;
            print_params(alloc, out, params)?;
            put_punct(out, Punct::CloseParen)?;
            print_body(alloc, out, body)
        }
        External::Objects {
            is_static,
            specifier,
            items,
            ..
        } => {
            put_static(out, *is_static)?;
            print_specifier(alloc, out, specifier)?;
            print_items(alloc, out, items.as_slice())?;
            put_punct(out, Punct::Semicolon)
        }
    }
}

/// The kinds of the tokens that the tree stands for, from first to last.
///
/// # Errors
///
/// Only when memory runs out.
pub fn print_tree(alloc: Global, program: &Program) -> Result<List<Kind>, AllocError>
    ensures { IfOk result (λ kinds. kinds ≡ spec.kinds_of (program_of program.now)) }
{
    let mut out = List::new(alloc);
    for external in program.externals.as_slice() {
        print_external(alloc, &mut out, external)?;
    }
    Ok(out)
}
