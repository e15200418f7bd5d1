//! Lists in the grammar of a line, of any rule.

ghost use Rattle.std.specs.Prelude.{◌≡◌, ◌<◌, ◌≤◌, ◌∷◌, List, None, All, IfOk, length, is_some};
ghost use Rattle.line_grammar.specs.Phrases.{Reads, few_at, list_until};
ghost use Rattle.line_grammar.specs.TokenLists.{list1_at, list_at};
ghost use Rattle.line_grammar.specs.declared.tokens.Token.{Token};
ghost use Rattle.line_grammar.specs.declared.tokens.Token.TheVariants.{Sign};

use crate::cursor::Tokens;
use crate::phrase::ListItem;
use crate::tokens::Mark;
use crate::unread::Unread;
use std::alloc::Global;
use text_lists::List;

impl<'a> Tokens<'a> {
    /// LIST1(p): one or several with commas between them.
    pub fn list1<P: ListItem>(&mut self, alloc: Global) -> Result<List<P::Value>, Unread>
        ensures list { Reads (list1_at P.reads) self.old self.new result }
        ensures some { IfOk result (λ values. 1 ≤ length values) }
        ensures fit { IfOk result (λ values. All P.is_fit values) }
    {
        let mut values = List::new(alloc);
        loop {
            let value = P::take(alloc, self)?;
            values.push(value)?;
            let Ok(()) = self.mark(Mark::Comma) else {
                return Ok(values);
            };
        }
    }

    /// LIST1(p) of at most so many. A longer one is absent, and isn't read to its end.
    pub fn few<P: ListItem>(&mut self, alloc: Global, most: usize) -> Result<List<P::Value>, Unread>
        requires { 0 < most }
        ensures list { Reads (few_at P.reads most) self.old self.new result }
        ensures some { IfOk result (λ values. 1 ≤ length values) }
        ensures few { IfOk result (λ values. length values ≤ most) }
        ensures fit { IfOk result (λ values. All P.is_fit values) }
    {
        let mut values = List::new(alloc);
        loop {
            let value = P::take(alloc, self)?;
            values.push(value)?;
            let Ok(()) = self.mark(Mark::Comma) else {
                return Ok(values);
            };
            if most <= values.as_slice().len() {
                return Err(Unread::Absent);
            }
        }
    }

    /// LIST(p): several or none; `stands` tells whether a p stands at the front.
    pub fn list<P: ListItem>(
        &mut self,
        alloc: Global,
        stands: bool,
    ) -> Result<List<P::Value>, Unread>
        requires { stands ≡ is_some (P.reads self.old) }
        ensures list { Reads (list_at P.reads) self.old self.new result }
        ensures fit { IfOk result (λ values. All P.is_fit values) }
    {
        if stands {
            self.list1::<P>(alloc)
        } else {
            Ok(List::new(alloc))
        }
    }

    /// LIST(p) and then a mark that no p begins with.
    pub fn list_until<P: ListItem>(
        &mut self,
        alloc: Global,
        mark: Mark,
    ) -> Result<List<P::Value>, Unread>
        requires { (rest : List Token) → P.reads (Sign mark ∷ rest) ≡ None }
        ensures list { Reads (list_until P.reads mark) self.old self.new result }
        ensures fit { IfOk result (λ values. All P.is_fit values) }
    {
        if let Ok(()) = self.mark(mark) {
            return Ok(List::new(alloc));
        }
        let values = self.list1::<P>(alloc)?;
        self.mark(mark)?;
        Ok(values)
    }
}
