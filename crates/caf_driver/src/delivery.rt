//! How posts come to wait where they go.
ghost use Rattle.std.specs.Prelude.{◌≡◌, ℕ, ◌<◌, length, map, OnOk};
ghost use Rattle.std.specs.List.{AllByRecursion};
ghost use Rattle.caf_actor.specs.PlainForms.{plain_post};
ghost use Rattle.caf_actor.specs.PlainPost.{PlainPost};
ghost use Rattle.caf_driver.specs.Mail.{IsMail};
ghost use Rattle.caf_driver.specs.Delivery.{HasDelivered};

use crate::mail::Mail;
use caf_actor::Post;
use caf_types::{Memory, Seq};

/// Each post waits where it goes, behind what its sender sent there before. After want of memory
/// nothing is said of what waits.
pub(crate) fn deliver(mail: &mut Mail, posts: Seq<Post>) -> Result<(), Memory>
    requires mail { IsMail mail.old }
    requires places { AllByRecursion (λ (p : PlainPost). p.to < length mail.old.arrivals) (map plain_post posts) }
    ensures { (from : ℕ) → AllByRecursion (λ (p : PlainPost). p.envelope.sender ≡ from) (map plain_post posts)
        → OnOk result (HasDelivered mail.old from (map plain_post posts) mail.new) }
{
    for post in posts.into_vec() {
        mail.push(post.to, post.envelope)?;
    }
    Ok(())
}
