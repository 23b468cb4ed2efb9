//! What callers in other languages are shown of the types of `crates/speedy_protocol/messages.rs`.
//!
//! Made from `crates/speedy_protocol/messages.rs` by `tools/derive --library`: change that, and make this again.
ghost use Rattle.std.specs.Prelude.{◌≡◌, Some, None};
ghost use Rattle.speedy.specs.Exports.{ShowsText};

use crate::messages::{FramedBytes, FramedMessage, Header, Header2, Message, Reading, Start};
use speedy::encoded::EncodedList;
use speedy::exports::{ListView, Shown, Unshown, View, Walk, text_shown};
use std::alloc::Global;

/// An option: whether there is a value (0 or 1), and which.
#[repr(C)]
#[derive(Clone, Copy)]
pub struct MaybeTextView<'a> {
    pub is_some: u8,
    pub value: &'a [u8],
}

impl<'a> MaybeTextView<'a> {
    // Zeros.
    fn empty() -> MaybeTextView<'a> {
        MaybeTextView {
            is_some: 0,
            value: &[],
        }
    }
}

impl<'a> View<Option<&'a str>> for MaybeTextView<'a> {
    ghost shows = { λ value view. elim value [
      | None ↦ view.is_some ≡ 0
      | Some it ↦ (view.is_some ≡ 1) × (ShowsText it.now view.value.now)
    ] };

    fn of(value: &Option<&'a str>) -> MaybeTextView<'a> {
        match value {
            Some(it) => MaybeTextView {
                is_some: 1,
                value: it.as_bytes(),
            },
            None => MaybeTextView {
                is_some: 0,
                value: &[],
            },
        }
    }
}

impl<'a> Shown<Option<&'a str>> for MaybeTextView<'a> {
    fn value(&self, _alloc: Global) -> Result<Option<&'a str>, Unshown> {
        match self.is_some {
            0 => Ok(None),
            1 => {
                let it = text_shown(self.value)?;
                Ok(Some(it))
            }
            _ => Err(Unshown::Tag),
        }
    }
}

/// What a [`Start`] shows.
#[repr(C)]
#[derive(Clone, Copy)]
pub struct StartView<'a> {
    pub header: &'a [u8],
}

impl<'a> View<Start<'a>> for StartView<'a> {
    ghost shows = { λ value view.
        view.header.now ≡ value.header.now };

    fn of(value: &Start<'a>) -> StartView<'a> {
        StartView {
            header: value.header,
        }
    }
}

impl<'a> Shown<Start<'a>> for StartView<'a> {
    fn value(&self, _alloc: Global) -> Result<Start<'a>, Unshown> {
        let t0 = self.header;
        Ok(Start { header: t0 })
    }
}

/// What a [`Header`] shows.
#[repr(C)]
#[derive(Clone, Copy)]
pub struct HeaderView {
    pub version: u16,
    pub flags: u16,
}

impl View<Header> for HeaderView {
    ghost shows = { λ value view.
        (view.version ≡ value.version) × (view.flags ≡ value.flags) };

    fn of(value: &Header) -> HeaderView {
        HeaderView {
            version: value.version,
            flags: value.flags,
        }
    }
}

impl Shown<Header> for HeaderView {
    fn value(&self, _alloc: Global) -> Result<Header, Unshown> {
        let t0 = self.version;
        let t1 = self.flags;
        Ok(Header {
            version: t0,
            flags: t1,
        })
    }
}

/// What a [`Header2`] shows.
#[repr(C)]
#[derive(Clone, Copy)]
pub struct Header2View {
    pub version: u16,
    pub flags: u16,
    pub session: u64,
}

impl View<Header2> for Header2View {
    ghost shows = { λ value view.
        (view.version ≡ value.version) × (view.flags ≡ value.flags) × (view.session ≡ value.session) };

    fn of(value: &Header2) -> Header2View {
        Header2View {
            version: value.version,
            flags: value.flags,
            session: value.session,
        }
    }
}

impl Shown<Header2> for Header2View {
    fn value(&self, _alloc: Global) -> Result<Header2, Unshown> {
        let t0 = self.version;
        let t1 = self.flags;
        let t2 = self.session;
        Ok(Header2 {
            version: t0,
            flags: t1,
            session: t2,
        })
    }
}

/// What a [`Reading`] shows.
#[repr(C)]
#[derive(Clone, Copy)]
pub struct ReadingView {
    pub second: u32,
    pub value: i32,
}

impl View<Reading> for ReadingView {
    ghost shows = { λ value view.
        (view.second ≡ value.second) × (view.value ≡ value.value) };

    fn of(value: &Reading) -> ReadingView {
        ReadingView {
            second: value.second,
            value: value.value,
        }
    }
}

impl Shown<Reading> for ReadingView {
    fn value(&self, _alloc: Global) -> Result<Reading, Unshown> {
        let t0 = self.second;
        let t1 = self.value;
        Ok(Reading {
            second: t0,
            value: t1,
        })
    }
}

/// What a `Hello` of [`Message`] shows.
#[repr(C)]
#[derive(Clone, Copy)]
pub struct MessageHelloView<'a> {
    pub name: &'a [u8],
    pub mail: MaybeTextView<'a>,
}

impl<'a> MessageHelloView<'a> {
    // Zeros.
    fn empty() -> MessageHelloView<'a> {
        MessageHelloView {
            name: &[],
            mail: MaybeTextView::empty(),
        }
    }
}

/// What a `Readings` of [`Message`] shows.
#[repr(C)]
#[derive(Clone, Copy)]
pub struct MessageReadingsView<'a> {
    pub sensor: u16,
    pub list: ListView<'a>,
}

impl<'a> MessageReadingsView<'a> {
    // Zeros.
    fn empty() -> MessageReadingsView<'a> {
        MessageReadingsView {
            sensor: 0,
            list: ListView {
                items: Walk { left: &[] },
                count: 0,
                order: 0,
            },
        }
    }
}

/// What a `Blob` of [`Message`] shows.
#[repr(C)]
#[derive(Clone, Copy)]
pub struct MessageBlobView<'a> {
    pub t0: &'a [u8],
}

impl<'a> MessageBlobView<'a> {
    // Zeros.
    fn empty() -> MessageBlobView<'a> {
        MessageBlobView { t0: &[] }
    }
}

/// What a `Failure` of [`Message`] shows.
#[repr(C)]
#[derive(Clone, Copy)]
pub struct MessageFailureView<'a> {
    pub code: u32,
    pub text: &'a [u8],
}

impl<'a> MessageFailureView<'a> {
    // Zeros.
    fn empty() -> MessageFailureView<'a> {
        MessageFailureView { code: 0, text: &[] }
    }
}

/// What a [`Message`] shows: the tag of its variant, and the fields of that.
#[repr(C)]
#[derive(Clone, Copy)]
pub struct MessageView<'a> {
    pub tag: u32,
    pub hello: MessageHelloView<'a>,
    pub readings: MessageReadingsView<'a>,
    pub blob: MessageBlobView<'a>,
    pub failure: MessageFailureView<'a>,
}

impl<'a> MessageView<'a> {
    // Zeros.
    fn empty() -> MessageView<'a> {
        MessageView {
            tag: 0,
            hello: MessageHelloView::empty(),
            readings: MessageReadingsView::empty(),
            blob: MessageBlobView::empty(),
            failure: MessageFailureView::empty(),
        }
    }
}

impl<'a> View<Message<'a>> for MessageView<'a> {
    ghost use Rattle.protocol.specs.declared.messages.Message.{Message};

    ghost shows = { λ value view. elim value [
      | Message.Ping ↦
          view.tag ≡ 1
      | Message.Hello t0 t1 ↦
          (view.tag ≡ 2) × (ShowsText t0.now view.hello.name.now)
          × (⟦<MaybeTextView<'a> as View<Option<&'a str>>>⟧.shows t1 view.hello.mail)
      | Message.Readings t0 t1 ↦
          (view.tag ≡ 3) × (view.readings.sensor ≡ t0)
          × (⟦<ListView<'a> as View<EncodedList<'a, Reading>>>⟧.shows t1 view.readings.list)
      | Message.Blob t0 ↦
          (view.tag ≡ 4) × (view.blob.t0.now ≡ t0.now)
      | Message.Failure t0 t1 ↦
          (view.tag ≡ 5) × (view.failure.code ≡ t0) × (ShowsText t1.now view.failure.text.now)
      | Message.Bye ↦
          view.tag ≡ 255
    ] };

    fn of(value: &Message<'a>) -> MessageView<'a> {
        let mut view = MessageView::empty();
        match value {
            Message::Ping => view.tag = 1,
            Message::Hello { name: t0, mail: t1 } => {
                view.tag = 2;
                view.hello = MessageHelloView {
                    name: t0.as_bytes(),
                    mail: View::of(t1),
                };
            }
            Message::Readings {
                sensor: t0,
                list: t1,
            } => {
                view.tag = 3;
                view.readings = MessageReadingsView {
                    sensor: *t0,
                    list: View::of(t1),
                };
            }
            Message::Blob(t0) => {
                view.tag = 4;
                view.blob = MessageBlobView { t0: *t0 };
            }
            Message::Failure { code: t0, text: t1 } => {
                view.tag = 5;
                view.failure = MessageFailureView {
                    code: *t0,
                    text: t1.as_bytes(),
                };
            }
            Message::Bye => view.tag = 255,
        }
        view
    }
}

impl<'a> Shown<Message<'a>> for MessageView<'a> {
    fn value(&self, alloc: Global) -> Result<Message<'a>, Unshown> {
        match self.tag {
            1 => Ok(Message::Ping),
            2 => {
                let t0 = text_shown(self.hello.name)?;
                let t1 = self.hello.mail.value(alloc)?;
                Ok(Message::Hello { name: t0, mail: t1 })
            }
            3 => {
                let t0 = self.readings.sensor;
                let t1 = self.readings.list.value(alloc)?;
                Ok(Message::Readings {
                    sensor: t0,
                    list: t1,
                })
            }
            4 => {
                let t0 = self.blob.t0;
                Ok(Message::Blob(t0))
            }
            5 => {
                let t0 = self.failure.code;
                let t1 = text_shown(self.failure.text)?;
                Ok(Message::Failure { code: t0, text: t1 })
            }
            255 => Ok(Message::Bye),
            _ => Err(Unshown::Tag),
        }
    }
}

/// What a [`FramedMessage`] shows.
#[repr(C)]
#[derive(Clone, Copy)]
pub struct FramedMessageView<'a> {
    pub size: u16,
    pub message: MessageView<'a>,
}

impl<'a> View<FramedMessage<'a>> for FramedMessageView<'a> {
    ghost shows = { λ value view.
        (view.size ≡ value.size)
        × (⟦<MessageView<'a> as View<Message<'a>>>⟧.shows value.message view.message) };

    fn of(value: &FramedMessage<'a>) -> FramedMessageView<'a> {
        FramedMessageView {
            size: value.size,
            message: View::of(&value.message),
        }
    }
}

impl<'a> Shown<FramedMessage<'a>> for FramedMessageView<'a> {
    fn value(&self, alloc: Global) -> Result<FramedMessage<'a>, Unshown> {
        let t0 = self.size;
        let t1 = self.message.value(alloc)?;
        Ok(FramedMessage {
            size: t0,
            message: t1,
        })
    }
}

/// What a [`FramedBytes`] shows.
#[repr(C)]
#[derive(Clone, Copy)]
pub struct FramedBytesView<'a> {
    pub bytes: &'a [u8],
}

impl<'a> View<FramedBytes<'a>> for FramedBytesView<'a> {
    ghost shows = { λ value view.
        view.bytes.now ≡ value.bytes.now };

    fn of(value: &FramedBytes<'a>) -> FramedBytesView<'a> {
        FramedBytesView { bytes: value.bytes }
    }
}

impl<'a> Shown<FramedBytes<'a>> for FramedBytesView<'a> {
    fn value(&self, _alloc: Global) -> Result<FramedBytes<'a>, Unshown> {
        let t0 = self.bytes;
        Ok(FramedBytes { bytes: t0 })
    }
}
