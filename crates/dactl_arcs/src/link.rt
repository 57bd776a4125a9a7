//! The number of an arc, or none, in four bytes, and a row of these.

ghost use Rattle.std.specs.Prelude.{◌≡◌, ◌+◌, ◌<◌, ◌^◌, length, replicate, slice_index_or};
ghost use Rattle.std.specs.Prelude.{slice_set, None, Some, IfOk};
ghost use Rattle.dactl_arcs.specs.Tables.{link_of};

use crate::lists::Memory;
use crate::table::Table;
use std::alloc::Global;
use std::marker::Model;

/// The number of an arc, or none. An `Option<u32>` would take eight bytes.
#[derive(Clone, Copy, Drop)]
pub struct Link {
    // 0 where there is none, else one more than the number.
    code: u32,
}

impl Model for Link {
    ghost use Rattle.std.specs.Prelude.{ℕ, Option};

    ghost Value = { Option ℕ };

    ghost use Rattle.dactl_arcs.specs.Tables.{link_of, code_of, code_of_link};
    ghost use Rattle.std.proofs.Common.{ap};

    ghost view = { λ l. link_of l.code };

    ghost inverse = { λ o. record { code = code_of o } };

    ghost inverse_ok = { λ l sound. ap (λ code. record { code = code }) (code_of_link l.code) };
}

// The link with this code.
#[inline(always)]
fn decoded(code: u32) -> Link
    ensures { result ≡ link_of code }
{
    Link { code }
}

impl Link {
    /// A link to the arc.
    #[inline(always)]
    pub fn to(arc: u32) -> Link
        requires { arc + 1 < 2 ^ 32 }
        ensures { result ≡ Some arc }
    {
        Link { code: arc + 1 }
    }

    /// The arc to which the link leads, if there is one.
    #[inline(always)]
    pub fn arc(self) -> Option<u32>
        ensures { result ≡ self }
    {
        self.code.checked_sub(1)
    }

    // The code of the link.
    #[inline(always)]
    fn encoded(self) -> u32
        ensures { link_of result ≡ self }
    {
        self.code
    }
}

/// A row of links, of which only the front that was used is stored.
#[derive(Drop)]
pub struct LinkTable {
    codes: Table,
}

impl Model for LinkTable {
    ghost use Rattle.std.specs.Prelude.{ℕ, List, Option, map};

    ghost Value = { List (Option ℕ) };

    ghost use Rattle.dactl_arcs.specs.Tables.{link_of};

    ghost view = { λ t. map link_of t.codes };
}

impl LinkTable {
    /// So many links to no arc.
    ///
    /// # Errors
    ///
    /// `Memory` where there is not enough memory for all of them.
    pub fn of_none(alloc: Global, length: u32) -> Result<LinkTable, Memory>
        ensures { IfOk result (λ table. table ≡ replicate length None) }
    {
        Ok(LinkTable {
            codes: Table::of_zeros(alloc, length)?,
        })
    }

    /// The link at the place.
    #[inline(always)]
    pub fn get(&self, place: u32) -> Link
        requires { place < length self.now }
        ensures { result ≡ slice_index_or self.now place None }
    {
        decoded(self.codes.get(place))
    }

    /// Puts a link at the place.
    #[inline(always)]
    pub fn set(&mut self, place: u32, link: Link)
        requires { place < length self.old }
        ensures { self.new ≡ slice_set self.old place link }
    {
        self.codes.set(place, link.encoded());
    }
}
