//! Value ids as the texts that they name.

ghost use Rattle.std.specs.Prelude.{◌≡◌, ◌<◌, IfOk, length, map};
ghost use Rattle.bench_core.specs.Stored.{HaveTexts, text_of};

use std::alloc::{AllocError, Global};
use text_lists::{List, Text, Texts};
use value_pool::{Pool, ValueId};

pub(crate) fn text_of(alloc: Global, pool: &Pool, id: ValueId) -> Result<Text, AllocError>
    requires { id < length pool.now }
    ensures { IfOk result (λ text. text ≡ text_of pool.now id) }
{
    Text::new(alloc, pool.text(id))
}

pub(crate) fn texts_of(alloc: Global, pool: &Pool, ids: &[ValueId]) -> Result<Texts, AllocError>
    requires { HaveTexts pool.now ids.now }
    ensures { IfOk result (λ texts. texts ≡ map (text_of pool.now) ids.now) }
{
    let mut texts = List::new(alloc);
    for id in ids {
        texts.push(text_of(alloc, pool, *id)?)?;
    }
    Ok(texts)
}
