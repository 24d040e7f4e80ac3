//! What a client reads.
ghost use Rattle.hcc_c.specs.Calls.{GetsValue, ReadsPart, ReadsValue, TellsKey, TellsLength};
ghost use Rattle.hcc_c.specs.Sessions.{IsWhole};

use crate::session::Session;
use crate::shapes::{CHandle, CPart};
use hcc_cache::{Got, Key};

impl Session {
    /// The key of the entry that a handle is on; none where the client holds no handle of these
    /// parts.
    pub fn key(&mut self, c_handle: CHandle) -> Option<Key>
        requires { IsWhole self.old }
        ensures whole { IsWhole self.new }
        ensures tells { TellsKey c_handle result self.old self.new }
    {
        let parts = self.parts(c_handle)?;
        let handle = self.client.handle(parts)?;
        Some(self.cache.key(&mut self.client, handle))
    }

    /// How many bytes the value has; none where the client holds no handle of these parts.
    pub fn value_len(&mut self, c_handle: CHandle) -> Option<usize>
        requires { IsWhole self.old }
        ensures whole { IsWhole self.new }
        ensures tells { TellsLength c_handle result self.old self.new }
    {
        let parts = self.parts(c_handle)?;
        let handle = self.client.handle(parts)?;
        Some(self.cache.value_len(&mut self.client, handle))
    }

    /// Copies the value to the front of the buffer: how many bytes it has. Where the buffer has
    /// fewer, the same number is returned as an error, and the buffer stays. None where the client
    /// holds no handle of these parts.
    pub fn read_value(
        &mut self,
        c_handle: CHandle,
        buffer: &mut [u8],
    ) -> Option<Result<usize, usize>>
        requires { IsWhole self.old }
        ensures whole { IsWhole self.new }
        ensures reads { ReadsValue c_handle result buffer.old buffer.new self.old self.new }
    {
        let parts = self.parts(c_handle)?;
        self.cache.try_read(&mut self.client, parts, buffer)
    }

    /// Copies bytes of the value, from an offset on, to the front of the buffer: how many it gave,
    /// and how many the value has. None where the client holds no handle of these parts.
    pub fn read_part(
        &mut self,
        c_handle: CHandle,
        offset: usize,
        buffer: &mut [u8],
    ) -> Option<CPart>
        requires { IsWhole self.old }
        ensures whole { IsWhole self.new }
        ensures reads { ReadsPart c_handle offset result buffer.old buffer.new self.old self.new }
    {
        let parts = self.parts(c_handle)?;
        let part = self
            .cache
            .try_read_part(&mut self.client, parts, offset, buffer)?;
        Some(CPart::of(part))
    }

    /// Copies the value of a key to the front of the buffer, with no handle: how many bytes it has,
    /// and whether the buffer has room for them.
    pub fn get(&mut self, key: Key, buffer: &mut [u8], useful: bool) -> Got
        requires { IsWhole self.old }
        ensures whole { IsWhole self.new }
        ensures gets { GetsValue key useful result buffer.old buffer.new self.old self.new }
    {
        let got = self.cache.get(&mut self.client, key, buffer, useful);
        self.counts.get(got)
    }
}
