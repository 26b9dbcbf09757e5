//! The questions of an entry. Source: this project's own rule.

ghost use Rattle.std.specs.Prelude.{◌≡◌, IfSome, OnErr};

use crate::asked::Asked;
use std::alloc::{AllocError, Global};
use std::marker::Model;
use std::sync::Arc;

/// Where questions lie: with their entry alone, or in a place that copies of the entry share.
#[derive(Drop)]
pub enum Place {
    Own(Vec<Asked>),
    Shared(Arc<Vec<Asked>, Global>),
}

/// What was asked of closures in one call, in order, which contracts see as a list. Copies of an entry share its
/// questions where these were put into a `SharedPlace`.
#[derive(Drop)]
pub struct Questions {
    place: Place,
}

impl Model for Questions {
    ghost use Rattle.std.specs.Prelude.{List};
    ghost use Rattle.irp_types.specs.declared.asked.Asked.{Asked};
    ghost use Rattle.irp_types.specs.Sharing.{questions_in};

    ghost Value = { List Asked };

    ghost view = { λ questions. questions_in questions.place };
}

impl Questions {
    /// The questions of this vector, in its order. It takes no memory.
    pub fn from_vec(questions: Vec<Asked>) -> Questions
        ensures { result ≡ questions.items }
    {
        Questions {
            place: Place::Own(questions),
        }
    }

    /// The questions, in order.
    pub fn as_slice(&self) -> &[Asked]
        ensures { result.now ≡ self.now }
    {
        match &self.place {
            Place::Own(questions) => questions.as_slice(),
            Place::Shared(questions) => questions.as_slice(),
        }
    }

    /// The same questions, in the same place. None where they can't be shared: where some lie with their entry alone,
    /// or the place has as many owners as it may have. It takes no memory.
    #[inline]
    pub(crate) fn shared(&self) -> Option<Questions>
        ensures { IfSome result (λ same. same ≡ self.now) }
    {
        match &self.place {
            Place::Own(questions) => {
                if !questions.is_empty() {
                    return None;
                }
                Some(Questions::from_vec(Vec::new(*questions.allocator())))
            }
            Place::Shared(questions) => {
                let place = Place::Shared(Arc::try_clone(questions).ok()?);
                Some(Questions { place })
            }
        }
    }
}

/// A place for questions that are to be shared, in which there are none yet.
#[derive(Drop)]
pub struct SharedPlace {
    place: Option<Arc<Vec<Asked>, Global>>,
}

impl SharedPlace {
    /// A place for so many questions. It takes no memory where there are to be none.
    ///
    /// # Errors
    ///
    /// `AllocError` where the growth was refused.
    #[inline]
    pub fn new(alloc: Global, count: usize) -> Result<SharedPlace, AllocError>
        ensures { count ≡ 0 → OnErr result ⊥ }
    {
        if count == 0 {
            return Ok(SharedPlace { place: None });
        }
        let place = Some(Arc::new(alloc, Vec::new(alloc))?);
        Ok(SharedPlace { place })
    }

    /// The questions of this vector, in its order, in this place. It takes no memory.
    #[inline]
    pub fn put(self, questions: Vec<Asked>) -> Questions
        ensures { result ≡ questions.items }
    {
        let Some(mut place) = self.place else {
            return Questions::from_vec(questions);
        };
        let Some(items) = Arc::get_mut(&mut place) else {
            return Questions::from_vec(questions);
        };
        *items = questions;
        Questions {
            place: Place::Shared(place),
        }
    }
}
