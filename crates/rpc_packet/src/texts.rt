//! Maps of texts as values, and values as maps of texts.

ghost use Rattle.std.specs.Prelude.{◌≡◌, map, IfOk};
ghost use Rattle.tars_model.specs.declared.value.Value.{out-Value};
ghost use Rattle.rpc_packet.specs.Packets.{bytes_of_layer, texts_of_layer, entry_of, text_pair, texts_value as value_of_texts};

use crate::TextPair;
use std::alloc::{AllocError, Global};
use tars_model::{Bytes8, List, Pair, Value};

/// The bytes of a text or of a `vector<byte>`.
pub(crate) fn into_bytes(alloc: Global, value: Value) -> Bytes8
    ensures { result ≡ bytes_of_layer (out-Value value) }
{
    match value {
        Value::Text(bytes) => bytes,
        Value::Blob(bytes) => bytes,
        _ => Bytes8::from_vec(Vec::new(alloc)),
    }
}

fn into_pair(alloc: Global, entry: Pair) -> TextPair
    ensures { result ≡ text_pair entry }
{
    let Pair { key, value } = entry;
    TextPair {
        key: into_bytes(alloc, key),
        value: into_bytes(alloc, value),
    }
}

fn into_pairs(alloc: Global, mut entries: List<Pair>) -> Result<List<TextPair>, AllocError>
    ensures { IfOk result (λ texts. texts ≡ map text_pair entries) }
{
    let mut texts = Vec::with_capacity(alloc, entries.len())?;
    // From the last on.
    while let Some(entry) = entries.pop() {
        texts.push(into_pair(alloc, entry))?;
    }
    texts.reverse();
    Ok(List::from_vec(texts))
}

/// The entries of a `map<string, string>`.
pub(crate) fn into_texts(alloc: Global, value: Value) -> Result<List<TextPair>, AllocError>
    ensures { IfOk result (λ texts. texts ≡ texts_of_layer (out-Value value)) }
{
    match value {
        Value::Map(entries) => into_pairs(alloc, entries),
        _ => Ok(List::new(alloc)),
    }
}

fn into_entry(text: TextPair) -> Pair
    ensures { result ≡ entry_of text }
{
    let TextPair { key, value } = text;
    Pair {
        key: Value::Text(key),
        value: Value::Text(value),
    }
}

/// The value that a `map<string, string>` of these entries is.
pub(crate) fn texts_value(alloc: Global, mut texts: List<TextPair>) -> Result<Value, AllocError>
    ensures { IfOk result (λ value. value ≡ value_of_texts texts) }
{
    let mut entries = Vec::with_capacity(alloc, texts.len())?;
    // From the last on.
    while let Some(text) = texts.pop() {
        entries.push(into_entry(text))?;
    }
    entries.reverse();
    Ok(Value::Map(List::from_vec(entries)))
}
