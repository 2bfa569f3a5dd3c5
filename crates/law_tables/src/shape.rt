//! A tree in short: the file once more without white space, comments and needless signs. A basic
//! type and a literal stand by the name of their variant, and after `@` is the span of a word that
//! the tree keeps as a span.

use idl_lex::Span;
use idl_parse::tree::*;
use row_pages::Page;
use std::str;

/// The bytes of a span.
fn word<'a>(text: &'a [u8], span: Span) -> &'a str {
    let bytes = text
        .get(span.start as usize..span.end as usize)
        .unwrap_or(&[]);
    str::from_utf8(bytes).unwrap_or("?")
}

fn put_name(page: &mut Page, text: &[u8], name: &ScopedName) {
    if let Some(scope) = name.scope {
        page.add(word(text, scope));
        page.add("::");
    }
    page.add(word(text, name.name));
}

fn put_type(page: &mut Page, text: &[u8], ty: &TypeTree) {
    match ty {
        TypeTree::Basic { basic, .. } => page.show(format_args!("{basic:?}")),
        TypeTree::Named(name) => put_name(page, text, name),
        TypeTree::Vector { element, .. } => {
            page.add("vector<");
            put_type(page, text, element.get());
            page.add(">");
        }
        TypeTree::Map { key, value, .. } => {
            page.add("map<");
            put_type(page, text, key.get());
            page.add(",");
            put_type(page, text, value.get());
            page.add(">");
        }
    }
}

fn put_typed(page: &mut Page, text: &[u8], typed: &TypedName) {
    put_type(page, text, &typed.ty);
    page.add(" ");
    page.add(word(text, typed.name));
}

fn put_literal(page: &mut Page, text: &[u8], literal: &Literal) {
    page.add("=");
    match literal {
        Literal::Word { word: kind, span } => {
            page.show(format_args!("{kind:?} "));
            page.add(word(text, *span));
        }
        Literal::Named(name) => put_name(page, text, name),
    }
}

fn put_member(page: &mut Page, text: &[u8], member: &MemberTree) {
    page.add(word(text, member.tag));
    page.add(match member.requirement {
        Requirement::Require => " require ",
        Requirement::Optional => " optional ",
    });
    put_typed(page, text, &member.typed);
    if let Some(array) = &member.array {
        let (length, at) = (word(text, array.length), array.at);
        page.show(format_args!("[{length}]@{at}"));
    }
    if let Some(literal) = &member.default {
        put_literal(page, text, literal);
    }
    page.add(";");
}

fn put_struct(page: &mut Page, text: &[u8], tree: &StructTree) {
    page.add("struct ");
    page.add(word(text, tree.name));
    page.add("{");
    for member in tree.members.as_slice() {
        put_member(page, text, member);
    }
    page.add("};");
}

fn put_enum(page: &mut Page, text: &[u8], tree: &EnumTree) {
    page.add("enum ");
    page.add(word(text, tree.name));
    page.add("{");
    for item in tree.items.as_slice() {
        page.add(word(text, item.name));
        if let Some(number) = item.number {
            page.add("=");
            page.add(word(text, number));
        }
        page.add(",");
    }
    page.add("};");
}

fn put_key(page: &mut Page, text: &[u8], tree: &KeyTree) {
    page.add("key ");
    page.add(word(text, tree.struct_name));
    page.add("[");
    for member in tree.members.as_slice() {
        page.add(word(text, *member));
        page.add(",");
    }
    page.add("];");
}

fn put_param(page: &mut Page, text: &[u8], param: &ParamTree) {
    if let Some(at) = param.routekey {
        page.show(format_args!("routekey@{at} "));
    }
    if param.out {
        page.add("out ");
    }
    put_typed(page, text, &param.typed);
    page.add(",");
}

fn put_func(page: &mut Page, text: &[u8], func: &FuncTree) {
    match &func.ret {
        Some(ty) => put_type(page, text, ty),
        None => page.add("void"),
    }
    page.add(" ");
    page.add(word(text, func.name));
    page.add("(");
    for param in func.params.as_slice() {
        put_param(page, text, param);
    }
    page.add(");");
}

fn put_interface(page: &mut Page, text: &[u8], tree: &InterfaceTree) {
    page.add("interface ");
    page.add(word(text, tree.name));
    page.add("{");
    for func in tree.funcs.as_slice() {
        put_func(page, text, func);
    }
    page.add("};");
}

fn put_decl(page: &mut Page, text: &[u8], decl: &DeclTree) {
    match decl {
        DeclTree::Struct(tree) => put_struct(page, text, tree),
        DeclTree::Enum(tree) => put_enum(page, text, tree),
        DeclTree::Const(tree) => {
            page.add("const ");
            put_typed(page, text, &tree.typed);
            put_literal(page, text, &tree.value);
            page.add(";");
        }
        DeclTree::Key(tree) => put_key(page, text, tree),
        DeclTree::Interface(tree) => put_interface(page, text, tree),
    }
}

fn put_module(page: &mut Page, text: &[u8], tree: &ModuleTree) {
    page.add("module ");
    page.add(word(text, tree.name));
    page.add("{");
    for decl in tree.decls.as_slice() {
        put_decl(page, text, decl);
    }
    page.add("};");
}

/// Adds what a text has, by the tree that it was read as.
pub fn put_shape(page: &mut Page, text: &[u8], entries: &[Entry]) {
    for entry in entries {
        match entry {
            Entry::Include(span) => {
                page.add("include ");
                page.add(word(text, *span));
                page.add(";");
            }
            Entry::Module(tree) => put_module(page, text, tree),
        }
    }
}
