//! What no clause says: that images and lines come with ample memory, and are the worked ones.
use dev_types::{
    Bytes, Channel, DataType, Handle, Name, Names, Origin, ParamInfo, Refused, Text, TypeList,
    Value,
};
use ppm_out::*;
use std::alloc::Global;
use std::process::Abort;
use std::test::Fail;

#[test]
fn images_are_the_worked_ones(rt: HostRuntime) -> Result<(), Fail> {
    // Two columns and two rows, from the lowest up, as colours and as ids.
    let pixels: [u8; 16] = [1, 2, 3, 255, 4, 5, 6, 255, 7, 8, 9, 0, 11, 12, 13, 14];
    let cases: [(bool, &[u8]); 2] = [
        (
            true,
            b"P6\n2 2\n255\n\x07\x08\x09\x0b\x0c\x0d\x01\x02\x03\x04\x05\x06",
        ),
        (
            false,
            b"P6\n2 2\n255\n\x09\x08\x07\x0d\x0c\x0b\x03\x02\x01\x06\x05\x04",
        ),
    ];
    for (color, image) in cases {
        let rows = block(rt.alloc(), &pixels)?;
        assert_eq!(rt; rows.as_slice().len(), 16);
        let frame = MappedBytes {
            w: 2,
            h: 2,
            color,
            rows,
        };
        let mut out = b"before ".to_vec(rt.alloc())?;
        assert_eq!(rt; write_ppm(rt.alloc(), &frame, &mut out), Ok(()));
        assert_eq!(rt; &out[..7.min(out.len())], b"before ".as_slice());
        assert_eq!(rt; &out[7.min(out.len())..], image, "color {color}");
    }
    Ok(())
}

fn block(alloc: Global, bytes: &[u8]) -> Result<Bytes, Fail> {
    Bytes::of(alloc, bytes.to_vec(alloc)?).map_err(|_| "out of memory".into())
}

fn name(text: &str) -> Result<Name, Fail> {
    Ok(Name::new(text).ok_or("a name")?)
}

/// The entry of this actor at a place of the journal has this line.
fn expect_line(
    rt: &(impl Abort + AllocGlobal),
    (place, actor): (u64, Option<u32>),
    call: CallText,
    reply: ReplyText,
    line: &str,
) {
    let entry = EntryText { actor, call, reply };
    let mut out = Vec::new(rt.alloc());
    let written = entry_line(rt.alloc(), place, &entry, &mut out);
    assert!(rt;
        written.is_ok() && out.as_slice() == line.as_bytes(),
        "not {line}"
    );
}

/// A call of caller 3 at place 5 that was done has this line.
fn expect_call(rt: &(impl Abort + AllocGlobal), call: CallText, line: &str) {
    expect_line(rt, (5, Some(3)), call, ReplyText::Done, line);
}

/// A call of caller 3 at place 5 is `commit 1` and has this reply.
fn expect_reply(rt: &(impl Abort + AllocGlobal), reply: ReplyText, line: &str) {
    expect_line(
        rt,
        (5, Some(3)),
        CallText::Commit { h: Handle(1) },
        reply,
        line,
    );
}

/// The same with a refusal.
fn expect_refusal(rt: &(impl Abort + AllocGlobal), refused: Refused, line: &str) {
    expect_reply(rt, ReplyText::Denied(refused), line);
}

#[test]
fn the_triangle_begins_with_these_lines(rt: HostRuntime) -> Result<(), Fail> {
    let vertices = [
        0, 0, 0xfe, 0xff, 0, 0, 0xfe, 0xff, 0, 0, 0, 0, 0, 0, 2, 0, 0, 0, 0xfe, 0xff, 0, 0, 0, 0,
        0, 0, 0xfe, 0xff, 0, 0, 2, 0, 0, 0, 0, 0,
    ];
    let call = CallText::NewArray {
        elem: DataType::ScalarVec3,
        count: 3,
        stride: 12,
        origin: Origin::Captured(7),
        bytes: block(rt.alloc(), &vertices)?,
    };
    let line =
        "1 0 new_array SCALAR_VEC3 3 12 captured 7 0000feff0000feff00000000000002000000feff000000000000feff0000020000000000 -> made 1\n";
    expect_line(&rt, (1, Some(0)), call, ReplyText::Made(Handle(1)), line);
    let call = CallText::NewObject {
        ty: DataType::Geometry,
        subtype: name("triangle")?,
    };
    let line = "2 0 new geometry triangle -> made 2\n";
    expect_line(&rt, (2, Some(0)), call, ReplyText::Made(Handle(2)), line);
    let call = CallText::SetParameter {
        h: Handle(2),
        name: name("vertex.position")?,
        value: Value::Object(DataType::Array1D, Handle(1)),
    };
    let line = "3 0 set 2 vertex.position ARRAY1D 0100000000000000 -> done\n";
    expect_line(&rt, (3, Some(0)), call, ReplyText::Done, line);
    Ok(())
}

#[test]
fn the_triangle_ends_with_these_lines(rt: HostRuntime) -> Result<(), Fail> {
    let h = Handle(9);
    let call = CallText::SetParameter {
        h,
        name: name("channel.color")?,
        value: Value::TypeName(DataType::Ufixed8Vec4),
    };
    let line = "26 0 set 9 channel.color DATA_TYPE 0b000000 -> done\n";
    expect_line(&rt, (26, Some(0)), call, ReplyText::Done, line);
    let call = CallText::RenderFrame { h };
    expect_line(
        &rt,
        (28, Some(0)),
        call,
        ReplyText::Done,
        "28 0 render 9 -> done\n",
    );
    let call = CallText::Finished(28);
    expect_line(
        &rt,
        (29, None),
        call,
        ReplyText::Noted,
        "29 - finished 28 -> noted\n",
    );
    let call = CallText::FrameReady { h, wait: true };
    expect_line(
        &rt,
        (30, Some(0)),
        call,
        ReplyText::Ready,
        "30 0 ready 9 wait -> ready\n",
    );
    let call = CallText::UnmapFrame { h, number: 31 };
    expect_line(
        &rt,
        (32, Some(0)),
        call,
        ReplyText::Done,
        "32 0 unmap_frame 9 31 -> done\n",
    );
    expect_line(
        &rt,
        (33, None),
        CallText::Close,
        ReplyText::Noted,
        "33 - close -> noted\n",
    );
    Ok(())
}

#[test]
fn calls_on_objects_have_their_words(rt: HostRuntime) -> Result<(), Fail> {
    let h = Handle(4294967296);
    expect_call(
        &rt,
        CallText::Retain { h },
        "5 3 retain 4294967296 -> done\n",
    );
    expect_call(
        &rt,
        CallText::Release { h },
        "5 3 release 4294967296 -> done\n",
    );
    expect_call(
        &rt,
        CallText::UnsetAll { h },
        "5 3 unset_all 4294967296 -> done\n",
    );
    expect_call(
        &rt,
        CallText::Commit { h },
        "5 3 commit 4294967296 -> done\n",
    );
    let call = CallText::UnsetParameter {
        h,
        name: name("up")?,
    };
    expect_call(&rt, call, "5 3 unset 4294967296 up -> done\n");
    let call = CallText::SetParameter {
        h,
        name: name("up")?,
        value: Value::Object(DataType::Scalar, Handle(258)),
    };
    expect_call(
        &rt,
        call,
        "5 3 set 4294967296 up !SCALAR 0201000000000000 -> done\n",
    );
    let call = CallText::SetParameter {
        h,
        name: name("name")?,
        value: Value::Str(Text::new("").ok_or("a text")?),
    };
    expect_call(&rt, call, "5 3 set 4294967296 name STRING - -> done\n");
    Ok(())
}

#[test]
fn calls_on_arrays_have_their_words(rt: HostRuntime) -> Result<(), Fail> {
    let h = Handle(1);
    let call = CallText::NewArray {
        elem: DataType::Uint32,
        count: 2,
        stride: 4,
        origin: Origin::Managed,
        bytes: block(rt.alloc(), &[])?,
    };
    expect_call(&rt, call, "5 3 new_array UINT32 2 4 managed 0 - -> done\n");
    let call = CallText::NewArray {
        elem: DataType::Ufixed8Vec4,
        count: 1,
        stride: 4,
        origin: Origin::Shared(18446744073709551615),
        bytes: block(rt.alloc(), &[1, 171, 255, 16])?,
    };
    let line = "5 3 new_array UFIXED8_VEC4 1 4 shared 18446744073709551615 01abff10 -> done\n";
    expect_call(&rt, call, line);
    expect_call(&rt, CallText::MapArray { h }, "5 3 map_array 1 -> done\n");
    let call = CallText::UnmapArray {
        h,
        number: 4,
        bytes: block(rt.alloc(), &[0, 159])?,
    };
    expect_call(&rt, call, "5 3 unmap_array 1 4 009f -> done\n");
    let call = CallText::MapParameterArray {
        h,
        name: name("vertex.position")?,
        elem: DataType::ScalarVec3,
        count: 3,
    };
    expect_call(
        &rt,
        call,
        "5 3 map_parameter_array 1 vertex.position SCALAR_VEC3 3 -> done\n",
    );
    let call = CallText::UnmapParameterArray {
        h,
        name: name("vertex.position")?,
        number: 4,
        bytes: block(rt.alloc(), &[240])?,
    };
    expect_call(
        &rt,
        call,
        "5 3 unmap_parameter_array 1 vertex.position 4 f0 -> done\n",
    );
    Ok(())
}

#[test]
fn calls_on_frames_and_notes_have_their_words(rt: HostRuntime) {
    let h = Handle(9);
    expect_call(&rt, CallText::RenderFrame { h }, "5 3 render 9 -> done\n");
    let call = CallText::FrameReady { h, wait: false };
    expect_call(&rt, call, "5 3 ready 9 nowait -> done\n");
    expect_call(&rt, CallText::DiscardFrame { h }, "5 3 discard 9 -> done\n");
    let call = CallText::MapFrame {
        h,
        channel: Channel::PrimitiveId,
    };
    expect_call(&rt, call, "5 3 map_frame 9 channel.primitiveId -> done\n");
    expect_call(&rt, CallText::Left(28), "5 3 left 28 -> done\n");
}

#[test]
fn queries_have_their_words(rt: HostRuntime) -> Result<(), Fail> {
    let call = CallText::GetProperty {
        h: Handle(0),
        name: name("version")?,
    };
    expect_call(&rt, call, "5 3 property 0 version -> done\n");
    let call = CallText::Subtypes {
        ty: DataType::Array1D,
    };
    expect_call(&rt, call, "5 3 subtypes array1d -> done\n");
    let call = CallText::ObjectInfo {
        ty: DataType::Camera,
        subtype: name("orthographic")?,
    };
    expect_call(&rt, call, "5 3 object_info camera orthographic -> done\n");
    let call = CallText::ParameterInfo {
        ty: DataType::ScalarVec2,
        subtype: name("a")?,
        name: name("b")?,
    };
    expect_call(&rt, call, "5 3 parameter_info SCALAR_VEC2 a b -> done\n");
    Ok(())
}

#[test]
fn replies_have_their_words(rt: HostRuntime) -> Result<(), Fail> {
    let alloc = rt.alloc();
    expect_reply(&rt, ReplyText::Lent(4), "5 3 commit 1 -> lent 4\n");
    let mapped = ReplyText::Mapped {
        width: 2,
        height: 1,
        ty: DataType::Ufixed8Vec4,
        rows: block(alloc, &[0, 1, 2, 255, 10, 11, 12, 255])?,
    };
    expect_reply(
        &rt,
        mapped,
        "5 3 commit 1 -> mapped 2 1 UFIXED8_VEC4 000102ff0a0b0cff\n",
    );
    let not_ready = ReplyText::NotReady { given: 2, of: 300 };
    expect_reply(&rt, not_ready, "5 3 commit 1 -> notready 2 300\n");
    let value = ReplyText::Val(Value::Scalar(-1));
    expect_reply(&rt, value, "5 3 commit 1 -> value SCALAR ffffffff\n");
    let value = ReplyText::Val(Value::Object(DataType::Str, Handle(1)));
    expect_reply(
        &rt,
        value,
        "5 3 commit 1 -> value STRING 0100000000000000\n",
    );
    let names = Names::of(vec![in alloc; name("sphere")?, name("triangle")?]?);
    let line = "5 3 commit 1 -> names sphere triangle\n";
    expect_reply(&rt, ReplyText::Listed(names), line);
    let names = Names::of(Vec::new(alloc));
    expect_reply(&rt, ReplyText::Listed(names), "5 3 commit 1 -> names\n");
    Ok(())
}

/// What is known of a parameter of these types, in words.
fn expect_info(
    rt: &(impl Abort + AllocGlobal),
    types: &[DataType],
    (required, default): (bool, Option<Value>),
    line: &str,
) -> Result<(), Fail> {
    let info = ParamInfo {
        types: TypeList::of(types.to_vec(rt.alloc())?),
        required,
        default,
    };
    expect_reply(rt, ReplyText::Info(info), line);
    Ok(())
}

#[test]
fn what_is_known_of_a_parameter_has_its_words(rt: HostRuntime) -> Result<(), Fail> {
    let world = [DataType::World];
    expect_info(
        &rt,
        &world,
        (true, None),
        "5 3 commit 1 -> info WORLD required\n",
    )?;
    let types = [DataType::TypeName, DataType::Uint32, DataType::Scalar];
    let line = "5 3 commit 1 -> info DATA_TYPE,UINT32,SCALAR optional\n";
    expect_info(&rt, &types, (false, None), line)?;
    let height = (false, Some(Value::Scalar(65536)));
    let line = "5 3 commit 1 -> info SCALAR default 00000100\n";
    expect_info(&rt, &[DataType::Scalar], height, line)
}

#[test]
fn refusals_have_their_numbers_and_fields(rt: HostRuntime) -> Result<(), Fail> {
    let h = Handle(7);
    expect_refusal(
        &rt,
        Refused::JournalFull(4),
        "5 3 commit 1 -> refused 1 4\n",
    );
    expect_refusal(&rt, Refused::BadHandle(h), "5 3 commit 1 -> refused 2 7\n");
    expect_refusal(&rt, Refused::NotHeld(h), "5 3 commit 1 -> refused 3 7\n");
    expect_refusal(&rt, Refused::WrongKind(h), "5 3 commit 1 -> refused 4 7\n");
    expect_refusal(&rt, Refused::BadSubtype, "5 3 commit 1 -> refused 5\n");
    expect_refusal(&rt, Refused::BadType, "5 3 commit 1 -> refused 6\n");
    expect_refusal(
        &rt,
        Refused::UnknownObjectParameter,
        "5 3 commit 1 -> refused 7\n",
    );
    expect_refusal(&rt, Refused::BadShape, "5 3 commit 1 -> refused 8\n");
    expect_refusal(
        &rt,
        Refused::ArrayMapped(h),
        "5 3 commit 1 -> refused 9 7\n",
    );
    expect_refusal(&rt, Refused::NotMapped, "5 3 commit 1 -> refused 10\n");
    let in_flight = Refused::InFlight { given: 0, of: 1 };
    expect_refusal(&rt, in_flight, "5 3 commit 1 -> refused 11 0 1\n");
    expect_refusal(&rt, Refused::NoPicture, "5 3 commit 1 -> refused 12\n");
    expect_refusal(&rt, Refused::ChannelMapped, "5 3 commit 1 -> refused 13\n");
    expect_refusal(&rt, Refused::NoChannel, "5 3 commit 1 -> refused 14\n");
    let incomplete = Refused::Incomplete(h, name("world")?);
    expect_refusal(&rt, incomplete, "5 3 commit 1 -> refused 15 7 world\n");
    expect_refusal(
        &rt,
        Refused::TooMany(256),
        "5 3 commit 1 -> refused 16 256\n",
    );
    let out_of_range = Refused::OutOfRange(h, name("size")?);
    expect_refusal(&rt, out_of_range, "5 3 commit 1 -> refused 17 7 size\n");
    expect_refusal(&rt, Refused::NoSuchName, "5 3 commit 1 -> refused 18\n");
    expect_refusal(&rt, Refused::NoMemory, "5 3 commit 1 -> refused 19\n");
    Ok(())
}
