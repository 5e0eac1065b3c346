//! A router's own delegated prefixes come and go (RFC 7788, sections 6.2 and 10.2).

ghost use Rattle.std.specs.Prelude.{◌≡◌, true, false, IfOk, OnOk};
ghost use Rattle.hn_own.specs.OwnPrefixes.{may_delegate};
ghost use Rattle.hn_rules.specs.Delegating.{delegating, withdrawing, ending};

use crate::running::Running;
use hn_base::NoMemory;
use hn_own::OwnPrefix;
use hn_prefix::Prefix;

impl Running {
    /// A delegated prefix is added, or replaces the same one; its lifetimes are in seconds, and 4294967295 is one that
    /// never ends (RFC 7788, section 10.2.1). It is there already, or fewer than 8 are.
    ///
    /// # Errors
    ///
    /// Out of memory. No clause says what the `Running` is then.
    pub fn put_prefix(&mut self, prefix: Prefix, valid: u32, preferred: u32) -> Result<(), NoMemory>
        requires { may_delegate prefix self.old.state.delegated ≡ true }
        ensures { OnOk result (self.new ≡ delegating prefix valid preferred self.old) }
    {
        let own = OwnPrefix::new(self.state.moment.get(), prefix, valid, preferred);
        self.state.delegated.edit()?.put(own)
    }

    /// A delegated prefix is withdrawn.
    ///
    /// # Errors
    ///
    /// Out of memory. No clause says what the `Running` is then.
    pub fn remove_prefix(&mut self, prefix: &Prefix) -> Result<(), NoMemory>
        ensures { OnOk result (self.new ≡ withdrawing prefix.now self.old) }
    {
        self.state.delegated.edit()?.remove(prefix);
        Ok(())
    }

    /// The delegated prefixes go whose valid lifetime has ended: whether there are some. After `false` nothing was
    /// changed. No clause says that something was after `true`.
    ///
    /// # Errors
    ///
    /// Out of memory. No clause says what the `Running` is then.
    pub fn end_prefixes(&mut self) -> Result<bool, NoMemory>
        ensures rule { OnOk result (self.new ≡ ending self.old) }
        ensures untouched { IfOk result (λ touched. touched ≡ false → self.new ≡ self.old) }
    {
        let now = self.state.moment.get();
        if !self.state.delegated.get().needs_end(now) {
            return Ok(false);
        }
        self.state.delegated.edit()?.end(now);
        Ok(true)
    }
}
