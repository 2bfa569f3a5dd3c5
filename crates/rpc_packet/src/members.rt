ghost use Rattle.std.specs.Prelude.{◌≡◌, ◌∷◌, [], ◌++◌, IfOk, OnOk};
ghost use Rattle.rpc_packet.specs.Packets.{packet_member, number_member, text_member, bytes_member, texts_member, request_members as request_members_are, response_members as response_members_are};

use std::alloc::{AllocError, Global};
use tars_model::{Boxed, Bytes8, List, Member, Name, Ty, Value};

/// The members of a packet, one added after another.
#[derive(Drop)]
struct Members {
    alloc: Global,
    members: List<Member>,
}

impl Members {
    fn new(alloc: Global) -> Members
        ensures { result.members ≡ [] }
    {
        Members {
            alloc,
            members: List::new(alloc),
        }
    }

    fn add(
        &mut self,
        tag: u8,
        require: bool,
        ty: Ty,
        name: &[u8],
        default: Value,
    ) -> Result<(), AllocError>
        ensures { OnOk result (self.new.members ≡ self.old.members ++ packet_member tag require ty name.now default ∷ []) }
    {
        let name = Name::from_slice(self.alloc, name)?;
        self.members.push(Member {
            tag,
            require,
            ty,
            name,
            default,
        })
    }

    fn number(&mut self, tag: u8, require: bool, ty: Ty, name: &[u8]) -> Result<(), AllocError>
        ensures { OnOk result (self.new.members ≡ self.old.members ++ number_member tag require ty name.now ∷ []) }
    {
        self.add(tag, require, ty, name, Value::Num(0))
    }

    fn text(&mut self, tag: u8, require: bool, name: &[u8]) -> Result<(), AllocError>
        ensures { OnOk result (self.new.members ≡ self.old.members ++ text_member tag require name.now ∷ []) }
    {
        let default = Value::Text(Bytes8::from_vec(Vec::new(self.alloc)));
        self.add(tag, require, Ty::Text, name, default)
    }

    /// A `vector<byte>`.
    fn bytes(&mut self, tag: u8, require: bool, name: &[u8]) -> Result<(), AllocError>
        ensures { OnOk result (self.new.members ≡ self.old.members ++ bytes_member tag require name.now ∷ []) }
    {
        let ty = Ty::Vector(Boxed::new(self.alloc, Ty::Byte)?);
        let default = Value::Blob(Bytes8::from_vec(Vec::new(self.alloc)));
        self.add(tag, require, ty, name, default)
    }

    /// A `map<string, string>`.
    fn texts(&mut self, tag: u8, require: bool, name: &[u8]) -> Result<(), AllocError>
        ensures { OnOk result (self.new.members ≡ self.old.members ++ texts_member tag require name.now ∷ []) }
    {
        let key = Boxed::new(self.alloc, Ty::Text)?;
        let ty = Ty::Map(key, Boxed::new(self.alloc, Ty::Text)?);
        let default = Value::Map(List::new(self.alloc));
        self.add(tag, require, ty, name, default)
    }
}

#[tactic(auto, unfolding(crate::specs::Packets::request_members))]
pub(crate) fn request_members(alloc: Global) -> Result<List<Member>, AllocError>
    ensures { IfOk result (λ members. members ≡ request_members_are) }
{
    let mut members = Members::new(alloc);
    members.number(1, true, Ty::Short, b"iVersion")?;
    members.number(2, false, Ty::Byte, b"cPacketType")?;
    members.number(3, false, Ty::Int, b"iMessageType")?;
    members.number(4, true, Ty::Int, b"iRequestId")?;
    members.text(5, true, b"sServantName")?;
    members.text(6, true, b"sFuncName")?;
    members.bytes(7, true, b"sBuffer")?;
    members.number(8, false, Ty::Int, b"iTimeout")?;
    members.texts(9, false, b"context")?;
    members.texts(10, false, b"status")?;
    Ok(members.members)
}

#[tactic(auto, unfolding(crate::specs::Packets::response_members))]
pub(crate) fn response_members(alloc: Global) -> Result<List<Member>, AllocError>
    ensures { IfOk result (λ members. members ≡ response_members_are) }
{
    let mut members = Members::new(alloc);
    members.number(1, true, Ty::Short, b"iVersion")?;
    members.number(2, false, Ty::Byte, b"cPacketType")?;
    members.number(3, true, Ty::Int, b"iRequestId")?;
    members.number(4, false, Ty::Int, b"iMessageType")?;
    members.number(5, false, Ty::Int, b"iRet")?;
    members.bytes(6, true, b"sBuffer")?;
    members.texts(7, false, b"status")?;
    members.text(8, false, b"sResultDesc")?;
    Ok(members.members)
}
