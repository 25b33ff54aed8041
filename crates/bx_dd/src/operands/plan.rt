//! What dd's operands ask for.
ghost use Rattle.std.specs.Prelude.{◌≡◌, ◌≢◌, ◌↔◌, ◌*◌, ◌^◌, ◌<◌, ◌≤◌, IfOk, IsErr, IsOkUnless};
ghost use Rattle.std.specs.Option.{ForSome};
ghost use Rattle.bx_dd.specs.declared.form.Shape.TheVariants.{Flat};

use crate::fault::DdFault;
use crate::form::{Form, Letters, Shape};
use bx_image::Change;
use bx_text::{Bytes, Name, Piece, Pieces};
use std::alloc::{AllocError, Allocator, Global};

/// What is read, how it is converted, and where it goes. Sizes are in bytes; `skip` and `count` are input blocks, and `seek` is output blocks.
#[derive(Drop)]
pub struct Plan<A: Allocator = Global> {
    /// The file of `if=`.
    pub input: Option<Name<A>>,
    /// The file of `of=`.
    pub output: Option<Name<A>>,
    /// The bytes of an input block, from 1 to 1,099,511,627,775: up to 16,777,216 by `ibs=`, more by `bs=` alone.
    pub ibs: u64,
    /// The bytes of an output block, at least 1.
    pub obs: u64,
    /// The bytes of a record, at most 16,777,216; 0 where none was given.
    pub cbs: u64,
    /// The input blocks that are read and dropped first.
    pub skip: u64,
    /// The output blocks in front of the output's place.
    pub seek: u64,
    /// The most input blocks that are copied; all where none was given.
    pub count: Option<u64>,
    /// Whether the bytes of each pair change places.
    pub swab: bool,
    /// Whether short input blocks are filled up to `ibs`.
    pub sync: bool,
    /// Whether what lies behind the output stays.
    pub notrunc: bool,
    /// Whether the counts of blocks are not reported.
    pub quiet: bool,
    /// The case that ASCII letters get.
    pub letters: Letters,
    /// Whether lines become records of `cbs` bytes, or records lines.
    pub shape: Shape,
    ghost some_ibs: { 0 < ibs },
    ghost few_ibs: { ibs ≤ 1099511627775 },
    ghost some_obs: { 0 < obs },
    ghost few_obs: { obs ≤ 1099511627775 },
    ghost some_cbs: { shape ≢ Flat → 0 < cbs },
    ghost few_cbs: { cbs ≤ 16777216 },
    ghost few_skip: { skip ≤ 1099511627775 },
    ghost few_seek: { seek ≤ 1099511627775 },
    ghost few_count: { ForSome count (λ n. n ≤ 1099511627775) },
    ghost skip_fits: { skip * ibs ≤ 2 ^ 48 },
    ghost seek_fits: { seek * obs ≤ 2 ^ 48 },
}

impl<A: Allocator> Plan<A> {
    ghost use Rattle.bx_dd.specs.Plan.{plan_form, change_of};

    /// The sizes and conversions.
    pub(crate) fn form(&self) -> Form
        ensures { result ≡ plan_form self.now }
    {
        Form {
            ibs: self.ibs,
            obs: self.obs,
            cbs: self.cbs,
            swab: self.swab,
            sync: self.sync,
            letters: self.letters,
            shape: self.shape,
        }
    }

    /// Whether the output can go to a stream: it has no place to seek to.
    pub fn for_stream(&self) -> Result<(), DdFault>
        ensures refused { IsErr result ↔ (0 < self.now.seek) }
        ensures fault { IsOkUnless result DdFault.SeekWithoutOutput }
    {
        if self.seek > 0 {
            return Err(DdFault::SeekWithoutOutput);
        }
        Ok(())
    }

    /// The change that puts the output in its place. The image ends there first, unless `conv=notrunc` was given. The one fault
    /// is want of memory, and the bytes are then given up.
    pub fn change<B: Allocator>(&self, alloc: B, bytes: Bytes<B>) -> Result<Change<B>, DdFault>
        ensures change { IfOk result (λ c. c ≡ change_of self.now bytes) }
        ensures fault { IsOkUnless result DdFault.NoMemory }
    {
        let at = self.seek * self.obs;
        let mut writes = Vec::new(alloc);
        writes.push(Piece { at, bytes }).map_err(AllocError::from)?;
        Ok(Change {
            base: if self.notrunc { None } else { Some(at) },
            writes: Pieces::from_vec(writes),
        })
    }
}
