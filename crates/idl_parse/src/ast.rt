ghost use Rattle.std.specs.Prelude.{◌≡◌, ◌⊎◌, ◌↔◌, ◌^◌, ◌<◌, ◌≤◌, ℕ, suc, length, MatchOption, IfOk, List as Listed};
ghost use Rattle.std.specs.List.{All};
ghost use Rattle.idl_parse.specs.Depth.{Shallow};
ghost use Rattle.idl_parse.specs.Files.{IsFileText, include_spans, IsInclude};
ghost use Rattle.idl_parse.specs.Grammar.{nesting_limit, IsFile};
ghost use Rattle.idl_parse.specs.Faults.{IsFault};
ghost use Rattle.idl_parse.specs.Nesting.{EntryNests};
ghost use Rattle.idl_parse.specs.Parsed.{IsFaultOf, IsRead, IsRefused, HasFault};
ghost use Rattle.idl_parse.specs.TreeSpans.{EntryIn};
ghost use Rattle.idl_lex.specs.Tokens.{Tokens as TokensOf};
ghost use Rattle.idl_parse.specs.declared.parse_fault.ParseWhy.{ParseWhy as Why};
ghost use Rattle.idl_lex.specs.declared.token.Token.{Token as Found};
ghost use Rattle.idl_parse.specs.declared.tree.module.Entry.{Entry as EntryTree};

use crate::includes::include_names;
use crate::parse_fault::ParseFault;
use crate::parser::file::file;
use crate::parser::halt::Halt;
use crate::parser::tokens::Tokens;
use crate::tree::Entry;
use idl_lex::Token;
use std::alloc::Global;
use std::marker::Model;
use tars_model::{Bytes8, List};

/// A file as it is written. Spans are those of its text, and the grammar derives its entries from the
/// tokens of its text.
#[derive(Drop)]
pub struct Ast {
    name: Bytes8,
    text: Bytes8,
    entries: List<Entry>,
    /// The names that the includes give, escapes replaced.
    includes: List<Bytes8>,
}

impl Model for Ast {
    ghost use Rattle.std.specs.Coded.{codes};
    ghost use Rattle.idl_parse.specs.Files.{File, IsAst};
    ghost use Rattle.idl_parse.specs.contracts.tree.type_tree.TypeTree as type_tree;

    ghost Value = { File };

    ghost coded = { Prim.hlevel (codes, type_tree.the_row.coded) };

    ghost view = { λ a. record { name = a.name; text = a.text; entries = a.entries } };

    ghost invariant = { λ a. IsAst a.text a.entries a.includes };
}

impl Ast {
    /// The file's name.
    pub fn name(&self) -> &[u8]
        ensures { result.now ≡ self.now.name }
    {
        self.name.as_slice()
    }

    pub fn text(&self) -> &[u8]
        ensures text { result.now ≡ self.now.text }
        ensures short { length self.now.text < 2 ^ 32 }
    {
        self.text.as_slice()
    }

    /// Includes and modules in the order of the text.
    pub fn entries(&self) -> &[Entry]
        ensures entries { result.now ≡ self.now.entries }
        // The text is a file with these entries.
        ensures file { IsFileText self.now.text self.now.entries }
        // Each part of the tree is the span of a token of its kind.
        ensures spans { All (EntryIn self.now.text) self.now.entries }
        // No type of the tree stands inside more others than the grammar lets it.
        ensures nested { All (EntryNests nesting_limit) self.now.entries }
    {
        self.entries.as_slice()
    }

    /// The name of the k-th include from 0, in the order of the text, escapes replaced.
    pub fn include(&self, k: usize) -> Option<&[u8]>
        ensures { MatchOption result (length (include_spans self.now.entries) ≤ k) (λ name. IsInclude self.now k name.now) }
    {
        let name = self.includes.get(k)?;
        Some(name.as_slice())
    }
}

/// What the parser's halt is for a user: the first byte of the tokens that are left, or the text's length.
fn fault_of(text: &[u8], left: &[Token], halt: Halt) -> ParseFault
    requires { length text.now < 2 ^ 32 }
    ensures { IsFaultOf (length text.now) left.now halt result }
{
    match (halt, left) {
        (Halt::Grammar(why), [first, ..]) => ParseFault::Bad {
            at: first.start,
            why,
        },
        (Halt::Grammar(why), []) => ParseFault::Bad {
            at: text.len() as u32,
            why,
        },
        (Halt::Memory, _) => ParseFault::Memory,
    }
}

/// The file that the tokens of a text are, or where and why they are none.
pub fn parse(alloc: Global, name: &str, text: &[u8], tokens: &[Token]) -> Result<Ast, ParseFault>
    requires short { length text.now < 2 ^ 32 }
    requires tokens { TokensOf text.now tokens.now }
    // What is read is derived by the grammar.
    ensures read { IfOk result (λ ast. IsFile nesting_limit tokens.now ast.entries) }
    // What the grammar derives is read, unless memory runs out.
    ensures only { (entries : Listed EntryTree) → IsFile nesting_limit tokens.now entries → IsRead result entries }
    // A fault is the one that the tokens have.
    ensures fault { HasFault nesting_limit text.now tokens.now result }
    // The fault that the tokens have is returned, unless memory runs out.
    ensures refused { (at : ℕ) (why : Why) → IsFault nesting_limit (length text.now) tokens.now at why → IsRefused result at why }
    ensures named { IfOk result (λ ast. ast.name ≡ name.now) }
    ensures kept { IfOk result (λ ast. ast.text ≡ text.now) }
{
    let mut left = Tokens::new(tokens);
    let entries = match file(alloc, &mut left) {
        Ok(entries) => entries,
        Err(halt) => return Err(fault_of(text, left.left(), halt)),
    };
    let includes = include_names(alloc, text, entries.as_slice())?;
    let name = Bytes8::from_slice(alloc, name.as_bytes())?;
    let text = Bytes8::from_slice(alloc, text)?;
    Ok(Ast {
        name,
        text,
        entries,
        includes,
    })
}

/// What holds of all lists of tokens, in a text of any length: they have one tree or one fault, and not
/// both. At most so many types stand one inside the other exactly where fewer `<` are open before each
/// token.
pub fn one_tree()
    ensures some { (end : ℕ) (tokens : Listed Found) → ((entries : Listed EntryTree) × IsFile nesting_limit tokens entries)
        ⊎ ((at : ℕ) × (why : Why) × IsFault nesting_limit end tokens at why) }
    ensures tree { (tokens : Listed Found) (a b : Listed EntryTree) → IsFile nesting_limit tokens a → IsFile nesting_limit tokens b → a ≡ b }
    ensures fault { (end : ℕ) (tokens : Listed Found) (a b : ℕ) (v w : Why) → IsFault nesting_limit end tokens a v → IsFault nesting_limit end tokens b w
        → (a ≡ b) × (v ≡ w) }
    ensures not_both { (end : ℕ) (tokens : Listed Found) (entries : Listed EntryTree) (at : ℕ) (why : Why) → IsFile nesting_limit tokens entries
        → ¬ (IsFault nesting_limit end tokens at why) }
    ensures nested { (limit : ℕ) (tokens : Listed Found) (entries : Listed EntryTree) → IsFile (suc limit) tokens entries
        ↔ (((depth : ℕ) × IsFile (suc depth) tokens entries) × Shallow (suc limit) 0 tokens) }
{}
