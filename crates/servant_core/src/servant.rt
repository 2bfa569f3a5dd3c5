ghost use Rattle.std.specs.Prelude.{◌≡◌, [], IfOk, OnOk};
ghost use Rattle.servant_core.specs.Servants.{Meaning, IsNext};

use crate::Reply;
use std::alloc::{AllocError, Global};
use tars_model::Value;

/// What replies to the calls of an interface.
pub trait Servant {
    /// The reply to a call, after the calls that came before it.
    ghost meaning: { Self → Meaning };

    /// Handles a call of the function of this number at the moment `now`, in milliseconds. After an `Err` nothing is known of what comes
    /// next.
    fn reply(
        &mut self,
        alloc: Global,
        func: u32,
        args: &[Value],
        now: u32,
    ) -> Result<Reply, AllocError>
        ensures reply { IfOk result (λ reply. reply ≡ meaning self.old [] record { func = func; args = args.now; moment = now }) }
        ensures next { OnOk result (IsNext (meaning self.old) record { func = func; args = args.now; moment = now } (meaning self.new)) };
}

impl Servant for Box<dyn Servant + Send + Drop> {
    ghost meaning = { λ b. (Servant-box b).meaning b.value };

    fn reply(
        &mut self,
        alloc: Global,
        func: u32,
        args: &[Value],
        now: u32,
    ) -> Result<Reply, AllocError> {
        (**self).reply(alloc, func, args, now)
    }
}

#[cfg(test)]
mod tests {
    use super::*;
    use crate::TableServant;
    use std::test::Fail;

    /// A servant that refuses every call, by one code.
    #[derive(Drop)]
    struct Refusing {
        code: i32,
    }

    impl Servant for Refusing {
        ghost use Rattle.servant_core.specs.declared.replies.Reply.TheVariants.{Code};

        ghost meaning = { λ s earlier last. Code s.code };

        fn reply(&mut self, _: Global, _: u32, _: &[Value], _: u32) -> Result<Reply, AllocError> {
            Ok(Reply::Code(self.code))
        }
    }

    /// A table can be boxed and sent.
    fn reply_of_box(alloc: Global, table: TableServant) -> Result<Reply, AllocError> {
        let mut servant: Box<dyn Servant + Send + Drop> = Box::new(alloc, table)?;
        servant.reply(alloc, 0, &[], 0)
    }

    #[test]
    fn a_box_replies_as_its_servant(rt: HostRuntime) -> Result<(), Fail> {
        let alloc = rt.alloc();
        let mut servant: Box<dyn Servant + Send + Drop> = Box::new(alloc, Refusing { code: 7 })?;
        let reply = servant.reply(alloc, 0, &[], 0)?;
        assert!(rt; matches!(reply, Reply::Code(7)));
        Ok(())
    }
}
