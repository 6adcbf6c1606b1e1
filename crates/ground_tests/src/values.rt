// What the proofs cannot see: rows from outside, that calls succeed where memory is ample, and that a
// block may be read from two threads.
ghost use Rattle.std.specs.Prelude.{◌≡◌, ◌+◌, ◌-◌, ◌≤◌, length, vec_len};
ghost use Rattle.std.specs.Vec.{vec_capacity};

use dev_types::*;
use std::alloc::Global;
use std::process::Abort;
use std::test::Fail;
use std::thread;

/// The value has these bytes, and they have this value.
fn expect_bytes(rt: &impl Abort, alloc: Global, value: &Value, bytes: &[u8]) -> Result<(), Fail> {
    let encoded = encode_value(alloc, value).map_err(|_| "out of memory")?;
    assert!(rt; encoded.as_slice() == bytes, "of {value:?}");
    let decoded = decode_value(value.data_type(), bytes).ok_or("no value")?;
    assert!(rt; decoded == *value, "of {value:?}");
    Ok(())
}

#[test]
fn numbers_have_the_bytes_of_the_table(rt: HostRuntime) -> Result<(), Fail> {
    let rows: [(i32, [u8; 4]); 4] = [
        (131072, [0, 0, 2, 0]),
        (-131072, [0, 0, 0xfe, 0xff]),
        (-1, [0xff; 4]),
        (258, [2, 1, 0, 0]),
    ];
    for (number, bytes) in rows {
        expect_bytes(&rt, rt.alloc(), &Value::Scalar(number), &bytes)?;
        expect_bytes(&rt, rt.alloc(), &Value::Int32(number), &bytes)?;
    }
    Ok(())
}

#[test]
fn other_values_have_the_bytes_of_the_table(rt: HostRuntime) -> Result<(), Fail> {
    let alloc = rt.alloc();
    let lower = Value::ScalarVec3([-131072, 131072, 0]);
    let lower_bytes = [0, 0, 0xfe, 0xff, 0, 0, 2, 0, 0, 0, 0, 0];
    expect_bytes(&rt, alloc, &lower, &lower_bytes)?;
    let size = Value::Uint32Vec2([4, 258]);
    expect_bytes(&rt, alloc, &size, &[4, 0, 0, 0, 2, 1, 0, 0])?;
    let pixel = Value::Ufixed8Vec4([255, 128, 0, 1]);
    expect_bytes(&rt, alloc, &pixel, &[255, 128, 0, 1])?;
    let type_name = Value::TypeName(DataType::Ufixed8Vec4);
    expect_bytes(&rt, alloc, &type_name, &[0x0b, 0, 0, 0])?;
    let text = Value::Str(Text::new("a\u{e9}").ok_or("a text")?);
    expect_bytes(&rt, alloc, &text, &[0x61, 0xc3, 0xa9])?;
    let array = Value::Object(DataType::Array1D, Handle(1));
    expect_bytes(&rt, alloc, &array, &[1, 0, 0, 0, 0, 0, 0, 0])
}

#[test]
fn other_bytes_are_no_value(rt: HostRuntime) {
    let long = [0x61; 257];
    let rows: [(DataType, &[u8]); 6] = [
        (DataType::Scalar, &[0, 0, 2]),
        (DataType::Str, &[0xff]),
        (DataType::Str, &long),
        (DataType::TypeName, &[0x19, 0, 0, 0]),
        (DataType::TypeName, &[0, 0, 0, 0]),
        (DataType::World, &[1, 0, 0, 0]),
    ];
    for (ty, bytes) in rows {
        assert!(rt; decode_value(ty, bytes).is_none(), "of {ty:?}");
    }
}

#[test]
fn an_object_of_no_object_type_has_the_bytes_of_its_handle(rt: HostRuntime) -> Result<(), Fail> {
    let value = Value::Object(DataType::Scalar, Handle(513));
    let bytes = encode_value(rt.alloc(), &value).map_err(|_| "out of memory")?;
    assert_eq!(rt; bytes.as_slice(), [1, 2, 0, 0, 0, 0, 0, 0].as_slice());
    assert!(rt; decode_value(DataType::Scalar, &bytes).is_none());
    Ok(())
}

#[test]
fn names_and_texts_have_their_limits(rt: HostRuntime) {
    let sixty_four = "abcdefghijklmnopqrstuvwxyzabcdefghijklmnopqrstuvwxyzabcdefghijkl";
    let sixty_five = "abcdefghijklmnopqrstuvwxyzabcdefghijklmnopqrstuvwxyzabcdefghijklm";
    for text in ["channel.color", "!~", sixty_four] {
        let name = Name::new(text);
        assert!(rt; name.is_some_and(|name| name.as_str() == text), "of {text}");
    }
    for text in [sixty_five, "", "a b", "a\u{7f}", "\u{e9}"] {
        assert!(rt; Name::new(text).is_none(), "of {text}");
    }
    assert!(rt; Text::new("").is_some());
}

/// The refusal of a call on object 9 has this number and gives this code.
fn expect_status(rt: &impl Abort, refused: &Refused, number: u8, code: Code) -> Result<(), Fail> {
    let status = refused.status(Handle(9)).ok_or("no status")?;
    assert!(rt; refused.copied() == *refused);
    assert!(rt;
        refused.number() == number && status.refusal == number,
        "of {refused:?}"
    );
    assert!(rt;
        status.code == code && status.severity == Severity::Error,
        "of {refused:?}"
    );
    assert!(rt; status.source == Handle(9));
    Ok(())
}

#[test]
fn each_refusal_is_told_by_its_number(rt: HostRuntime) -> Result<(), Fail> {
    let name = Name::new("size").ok_or("a name")?;
    let in_flight = Refused::InFlight { given: 0, of: 1 };
    expect_status(
        &rt,
        &Refused::BadHandle(Handle(3)),
        2,
        Code::InvalidArgument,
    )?;
    expect_status(&rt, &Refused::NotHeld(Handle(3)), 3, Code::InvalidOperation)?;
    expect_status(&rt, &Refused::BadShape, 8, Code::InvalidArgument)?;
    expect_status(&rt, &in_flight, 11, Code::InvalidOperation)?;
    expect_status(&rt, &Refused::TooMany(256), 16, Code::InvalidOperation)?;
    let out_of_range = Refused::OutOfRange(Handle(9), name);
    expect_status(&rt, &out_of_range, 17, Code::InvalidArgument)?;
    assert!(rt; Refused::JournalFull(4).status(Handle(9)).is_none());
    assert!(rt; Refused::NoMemory.status(Handle(9)).is_none());
    Ok(())
}

#[test]
fn a_block_and_its_share_read_the_same_in_two_threads(rt: HostRuntime) -> Result<(), Fail> {
    let bytes = vec![in rt.alloc(); 7; 36]?;
    let block = Bytes::of(rt.alloc(), bytes).map_err(|_| "out of memory")?;
    let share = block.share(rt.alloc()).map_err(|_| "out of memory")?;
    let here = &block;
    let (first, last) = thread::join(
        &rt,
        || here.as_slice().first().copied(),
        move || share.as_slice().last().copied(),
    );
    assert_eq!(rt; (first, last), (Some(7), Some(7)));
    assert_eq!(rt; block.as_slice().len(), 36);
    Ok(())
}

/// A client that keeps what it is told.
#[derive(Drop)]
struct Listener {
    heard: Vec<Notice>,
}

impl Client for Listener {
    ghost notices = { λ l. l.heard.items };

    ghost spare = { λ l. vec_capacity l.heard - vec_len l.heard };

    fn reserve(&mut self, _alloc: Global, n: u32) -> Result<(), NoMemory> {
        Ok(self.heard.reserve(n as usize)?)
    }

    fn deleted(&mut self, source: Handle, user: u64, bytes: Bytes) {
        self.heard.push_reserved(Notice::Deleted {
            source,
            user,
            bytes,
        });
    }

    fn let_go(&mut self, source: Handle, user: u64) {
        self.heard.push_reserved(Notice::LetGo { source, user });
    }

    fn status(&mut self, status: Status) {
        self.heard.push_reserved(Notice::Told(status));
    }
}

fn tell_of_each_kind<C: Client>(client: &mut C, bytes: Bytes, status: Status)
    requires { 3 ≤ C.spare client.old }
    ensures { length (C.notices client.new) ≡ length (C.notices client.old) + 3 }
{
    client.deleted(Handle(1), 7, bytes);
    client.let_go(Handle(2), 8);
    client.status(status);
}

#[test]
fn a_client_hears_each_kind_of_notice(rt: HostRuntime) -> Result<(), Fail> {
    let bytes = Bytes::of(rt.alloc(), vec![in rt.alloc(); 1; 4]?).map_err(|_| "out of memory")?;
    let status = Refused::BadShape.status(Handle(0)).ok_or("a status")?;
    let mut client = Listener {
        heard: Vec::new(rt.alloc()),
    };
    client.reserve(rt.alloc(), 3).map_err(|_| "out of memory")?;
    tell_of_each_kind(&mut client, bytes, status);
    assert_eq!(rt; client.heard.len(), 3);
    match &client.heard[0] {
        Notice::Deleted {
            source,
            user,
            bytes,
        } => assert!(rt;
            *source == Handle(1) && *user == 7 && bytes.as_slice() == [1; 4].as_slice()
        ),
        _ => return Err("the array's death comes first".into()),
    }
    Ok(())
}

#[test]
fn an_answer_and_its_copy_list_the_same(rt: HostRuntime) -> Result<(), Fail> {
    let name = Name::new("orthographic").ok_or("a name")?;
    let names = Names::of(vec![in rt.alloc(); name]?);
    let copy = names.copied(rt.alloc()).map_err(|_| "out of memory")?;
    assert_eq!(rt; (names.len(), copy.len()), (1, 1));
    assert!(rt; !names.is_empty() && copy.get(0) == names.get(0));
    let info = ParamInfo {
        types: TypeList::of(vec![in rt.alloc(); DataType::Scalar]?),
        required: false,
        default: Some(Value::Scalar(65536)),
    };
    let again = info.copied(rt.alloc()).map_err(|_| "out of memory")?;
    assert_eq!(rt; again.types.len(), 1);
    assert_eq!(rt; *again.types.get(0), DataType::Scalar);
    assert!(rt; again.default == info.default && !again.required);
    assert_eq!(rt; names.into_vec().len(), 1);
    Ok(())
}

/// The type has this name and this word, and is found by its name.
fn expect_words(rt: &impl Abort, ty: DataType, name: &str, word: &str) -> Result<(), Fail> {
    assert!(rt; ty.name() == name && ty.word() == word, "of {name}");
    assert!(rt; DataType::named(name) == Some(ty), "of {name}");
    Ok(())
}

#[test]
fn types_have_their_names_and_words(rt: HostRuntime) -> Result<(), Fail> {
    expect_words(&rt, DataType::ScalarMat34, "SCALAR_MAT34", "SCALAR_MAT34")?;
    expect_words(&rt, DataType::Ufixed8Vec4, "UFIXED8_VEC4", "UFIXED8_VEC4")?;
    expect_words(&rt, DataType::Str, "STRING", "STRING")?;
    expect_words(&rt, DataType::TypeName, "DATA_TYPE", "DATA_TYPE")?;
    expect_words(&rt, DataType::Array1D, "ARRAY1D", "array1d")?;
    expect_words(&rt, DataType::World, "WORLD", "world")?;
    assert!(rt; DataType::named("camera").is_none() && DataType::worded("CAMERA").is_none());
    assert!(rt; DataType::worded("camera") == Some(DataType::Camera));
    Ok(())
}

#[test]
fn channels_and_origins_have_their_words(rt: HostRuntime) -> Result<(), Fail> {
    assert!(rt; Channel::PrimitiveId.name() == "channel.primitiveId");
    assert!(rt; Channel::named("channel.instanceId") == Some(Channel::InstanceId));
    assert!(rt; Channel::named("channel.depth").is_none());
    assert!(rt; Origin::Captured(7).word() == "captured" && Origin::Managed.word() == "managed");
    Ok(())
}
