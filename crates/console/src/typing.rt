// What is done with each byte that is typed, and at the end of the input.
ghost use Rattle.std.specs.Prelude.{◌≡◌, ℕ, true, List, [], ◌∷◌, ◌++◌, Some};
ghost use Rattle.console.specs.Session.{Typed, Whole};
ghost use Rattle.console.specs.Told.{kept, told, shown, struck, ended, finished};
ghost use Rattle.keyboard.specs.Buffers.{line_of};
ghost use Rattle.keyboard.specs.Lines.{meaning};
ghost use Rattle.model.specs.History.{GoesOn};
ghost use Rattle.model.specs.declared.calls.Call.{Call as CallOf};
ghost use Rattle.model.specs.State.{State};
ghost use Rattle.steps.specs.Replies.{leaving, is_refusal};
ghost use Rattle.store.specs.View.{view, Same};

use crate::desk::Desk;
use keyboard::{Answer, Line, answer, command};
use kinds::kind::Kind;
use model::calls::Reply;
use model::refusals::Refusal;
use store::table::Store;

impl Desk {
    // A desk at which nothing is typed yet.
    pub fn new() -> Desk
        ensures value { kept result ≡ [] }
    {
        Desk { line: Line::new() }
    }

    // Performs the call that the line means.
    fn reply<K: Kind>(&self, store: &mut Store<'_, K>) -> Reply
        ensures answer { leaving result (view K.Kind store.new) ≡ told K.Kind.shape (view K.Kind store.old) (kept self.now) }
        ensures untouched { is_refusal result ≡ true → Same store.old store.new }
        ensures history { (c : CallOf) → meaning (kept self.now) ≡ Some c → GoesOn K.Kind.shape (view K.Kind store.old) c result (view K.Kind store.new) }
    {
        match command(self.line.bytes()) {
            Some(call) => store.perform(call),
            None => Reply::Refused(Refusal::BadLine),
        }
    }

    // Answers the line, and begins the next.
    fn finish<K: Kind>(&mut self, store: &mut Store<'_, K>) -> Answer
        ensures answer { record { line = kept self.new; output = line_of result; store = view K.Kind store.new } ≡ finished (told K.Kind.shape (view K.Kind store.old) (kept self.old)) }
        ensures untouched { is_refusal (told K.Kind.shape (view K.Kind store.old) (kept self.old)).reply ≡ true → Same store.old store.new }
        ensures history { (c : CallOf) → meaning (kept self.old) ≡ Some c → GoesOn K.Kind.shape (view K.Kind store.old) c (told K.Kind.shape (view K.Kind store.old) (kept self.old)).reply (view K.Kind store.new) }
    {
        let reply = self.reply(store);
        self.line.clear();
        answer(reply)
    }

    // One byte from the keyboard. A line feed ends the line, and the answer to it is handed out.
    pub fn key<K: Kind>(&mut self, store: &mut Store<'_, K>, byte: u8) -> Option<Answer>
        ensures answer { record { line = kept self.new; output = shown result; store = view K.Kind store.new } ≡ struck K.Kind.shape (view K.Kind store.old) (kept self.old) byte }
        ensures untouched { is_refusal (told K.Kind.shape (view K.Kind store.old) (kept self.old)).reply ≡ true → Same store.old store.new }
        ensures history { (c : CallOf) → byte ≡ 10 → meaning (kept self.old) ≡ Some c → GoesOn K.Kind.shape (view K.Kind store.old) c (told K.Kind.shape (view K.Kind store.old) (kept self.old)).reply (view K.Kind store.new) }
        ensures session { (s : State) (input output : List ℕ) → Typed K.Kind.shape s input output (kept self.old) (view K.Kind store.old) → Typed K.Kind.shape s (input ++ byte ∷ []) (output ++ shown result) (kept self.new) (view K.Kind store.new) }
    {
        if byte == b'\n' {
            return Some(self.finish(store));
        }
        self.line.push(byte);
        None
    }

    // The end of the input: a last line without a line feed is answered if it has a byte.
    pub fn end<K: Kind>(&mut self, store: &mut Store<'_, K>) -> Option<Answer>
        ensures answer { record { line = kept self.new; output = shown result; store = view K.Kind store.new } ≡ ended K.Kind.shape (view K.Kind store.old) (kept self.old) }
        ensures session { (s : State) (input output : List ℕ) → Typed K.Kind.shape s input output (kept self.old) (view K.Kind store.old) → Whole K.Kind.shape s input (output ++ shown result) (view K.Kind store.new) }
    {
        if self.line.is_empty() {
            return None;
        }
        Some(self.finish(store))
    }
}
