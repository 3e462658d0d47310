ghost use Rattle.std.specs.Prelude.{◌≡◌, [], ◌∷◌, ◌++◌, OnOk};

use caf_message::Envelope;
use caf_types::{Memory, Seq};
use std::alloc::Global;
use std::marker::Model;

/// An envelope that is sent, and the place that it goes to.
#[derive(Debug, Drop)]
pub struct Post {
    /// The place that it goes to.
    pub to: u32,
    /// What is sent.
    pub envelope: Envelope,
}

/// What a batch has sent so far, in order.
#[derive(Debug, Drop)]
pub(crate) struct Posts {
    posts: Seq<Post>,
}

impl Model for Posts {
    ghost use Rattle.std.specs.Prelude.{List};
    ghost use Rattle.caf_actor.specs.declared.post.Post.{Post};

    ghost Value = { List Post };

    ghost view = { λ it. it.posts };
}

impl Posts {
    pub(crate) fn new(alloc: Global) -> Posts
        ensures { result ≡ [] }
    {
        Posts {
            posts: Seq::new(alloc),
        }
    }

    pub(crate) fn push(&mut self, post: Post) -> Result<(), Memory>
        ensures { OnOk result (self.new ≡ self.old ++ post ∷ []) }
    {
        self.posts.push(post)
    }

    pub(crate) fn into_seq(self) -> Seq<Post>
        ensures { result ≡ self }
    {
        let Posts { posts } = self;
        posts
    }
}
