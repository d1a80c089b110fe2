// The texts of registers.
ghost use Rattle.std.specs.Prelude.{◌≡◌, ◌≢◌, ◌<◌, [], ℕ, IfOk, OnOk, length};
ghost use Rattle.vale_registers.specs.Shares.{IsReached, share_text, texts_in};
ghost use Rattle.vale_registers.specs.Texts.{IsWritten, text_at};

use std::alloc::Global;
use std::marker::Model;
use std::mem;
use std::rc::Rc;
use vale_base::{Memory, Text};

// A text that several registers hold, or the empty one.
#[derive(Drop)]
enum Share {
    Blank,
    Of(Rc<Text>),
}

// A share of the text of a register.
fn held(shares: &[Share], register: usize) -> Result<Share, Memory>
    ensures { IfOk result (λ share. share_text share ≡ text_at (texts_in shares.now) register) }
{
    if register >= shares.len() {
        return Ok(Share::Blank);
    }
    match &shares[register] {
        Share::Blank => Ok(Share::Blank),
        Share::Of(text) => Ok(Share::Of(text.clone()?)),
    }
}

// Empty texts behind all texts, until there is one of this register.
fn reach(shares: &mut Vec<Share>, register: usize) -> Result<(), Memory>
    ensures { OnOk result (IsReached register shares.old.items shares.new.items) }
{
    'blanks: while shares.len() <= register {
        shares.push(Share::Blank)?;
    }
    Ok(())
}

fn set(shares: &mut Vec<Share>, register: usize, share: Share) -> Result<(), Memory>
    ensures { OnOk result (IsWritten register (share_text share) (texts_in shares.old.items) (texts_in shares.new.items)) }
{
    reach(shares, register)?;
    shares[register] = share;
    Ok(())
}

fn hand(shares: &mut Vec<Share>, from: usize, to: usize)
    requires { to < from }
    ensures to { text_at (texts_in shares.new.items) to ≡ text_at (texts_in shares.old.items) from }
    ensures others { (i : ℕ) → i ≢ to → i ≢ from → text_at (texts_in shares.new.items) i ≡ text_at (texts_in shares.old.items) i }
{
    if from < shares.len() {
        let share = mem::replace(&mut shares[from], Share::Blank);
        shares[to] = share;
        return;
    }
    if to < shares.len() {
        shares[to] = Share::Blank;
    }
}

fn cut(shares: &mut Vec<Share>, count: usize)
    ensures { (i : ℕ) → i < count → text_at (texts_in shares.new.items) i ≡ text_at (texts_in shares.old.items) i }
{
    if count < shares.len() {
        shares.truncate(count);
    }
}

/// The texts of registers, each held by as many as have it. Those past the end have the empty text.
#[derive(Drop)]
pub struct Row {
    shares: Vec<Share>,
    blank: Text,
}

impl Model for Row {
    ghost use Rattle.std.specs.Prelude.{◌≡◌, ℕ, List, []};
    ghost use Rattle.vale_registers.specs.Shares.{texts_in};

    ghost Value = { List (List ℕ) };

    ghost view = { λ r. texts_in r.shares.items };

    ghost invariant = { λ r. r.blank ≡ [] };
}

impl Row {
    /// No texts. It takes no memory.
    pub fn new(alloc: Global) -> Self
        ensures { result ≡ [] }
    {
        Row {
            shares: Vec::new(alloc),
            blank: Text::new(alloc),
        }
    }

    /// The text of a register.
    pub fn text(&self, register: usize) -> &Text
        ensures { result.now ≡ text_at self.now register }
    {
        if register >= self.shares.len() {
            return &self.blank;
        }
        match &self.shares[register] {
            Share::Blank => &self.blank,
            Share::Of(text) => text,
        }
    }

    /// A register gets a text.
    pub fn put(&mut self, alloc: Global, register: usize, text: Text) -> Result<(), Memory>
        ensures { OnOk result (IsWritten register text self.old self.new) }
    {
        let share = Share::Of(Rc::new(alloc, text)?);
        set(&mut self.shares, register, share)
    }

    /// A register gets the text of another.
    pub fn share(&mut self, from: usize, to: usize) -> Result<(), Memory>
        ensures { OnOk result (IsWritten to (text_at self.old from) self.old self.new) }
    {
        let share = held(&self.shares, from)?;
        set(&mut self.shares, to, share)
    }

    /// A register gets the text of a later one, which has another then. It takes no memory.
    pub fn hand(&mut self, from: usize, to: usize)
        requires { to < from }
        ensures to { text_at self.new to ≡ text_at self.old from }
        ensures others { (i : ℕ) → i ≢ to → i ≢ from → text_at self.new i ≡ text_at self.old i }
    {
        hand(&mut self.shares, from, to)
    }

    /// The texts of the first registers are left.
    pub fn cut(&mut self, count: usize)
        ensures { (i : ℕ) → i < count → text_at self.new i ≡ text_at self.old i }
    {
        cut(&mut self.shares, count)
    }
}
