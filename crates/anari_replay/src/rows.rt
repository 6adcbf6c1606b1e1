//! What the worked traces show: each is the triangle's trace with a few edits.

use crate::tests::solo;
use std::alloc::{AllocError, Global};
use std::test::Fail;

/// A part of the triangle's trace, which stands there once, and what stands in its place.
type Edit = (&'static str, &'static str);

/// The size of an image and its pixels by rows from the top, a letter each.
type Shown = (&'static str, &'static str);

/// The triangle's trace.
pub const TRIANGLE: &str = r#"{"trace":1,"phases":[{"callers":[[
{"op":"new_array","label":"p","elem":"SCALAR_VEC3","count":3,"origin":"captured","user":7,"data":[-131072,-131072,0,131072,-131072,0,-131072,131072,0]},
{"op":"new","label":"g","type":"geometry","subtype":"triangle"},
{"op":"set","object":"g","name":"vertex.position","type":"ARRAY1D","value":"p"},
{"op":"commit","object":"g"},
{"op":"new","label":"m","type":"material","subtype":"matte"},
{"op":"set","object":"m","name":"color","type":"SCALAR_VEC3","value":[65536,0,0]},
{"op":"commit","object":"m"},
{"op":"new","label":"s","type":"surface"},
{"op":"set","object":"s","name":"geometry","type":"GEOMETRY","value":"g"},
{"op":"set","object":"s","name":"material","type":"MATERIAL","value":"m"},
{"op":"commit","object":"s"},
{"op":"new_array","label":"l","elem":"SURFACE","count":1,"origin":"captured","user":8,"data":["s"]},
{"op":"new","label":"w","type":"world"},
{"op":"set","object":"w","name":"surface","type":"ARRAY1D","value":"l"},
{"op":"commit","object":"w"},
{"op":"new","label":"c","type":"camera","subtype":"orthographic"},
{"op":"set","object":"c","name":"position","type":"SCALAR_VEC3","value":[0,0,65536]},
{"op":"set","object":"c","name":"height","type":"SCALAR","value":262144},
{"op":"commit","object":"c"},
{"op":"new","label":"r","type":"renderer","subtype":"default"},
{"op":"new","label":"f","type":"frame"},
{"op":"set","object":"f","name":"world","type":"WORLD","value":"w"},
{"op":"set","object":"f","name":"camera","type":"CAMERA","value":"c"},
{"op":"set","object":"f","name":"renderer","type":"RENDERER","value":"r"},
{"op":"set","object":"f","name":"size","type":"UINT32_VEC2","value":[4,4]},
{"op":"set","object":"f","name":"channel.color","type":"DATA_TYPE","value":"UFIXED8_VEC4"},
{"op":"commit","object":"f"},
{"op":"render","frame":"f"},
{"op":"ready","frame":"f","wait":true},
{"op":"with_frame","frame":"f","channel":"channel.color","calls":[]}
]]}]}"#;

/// The red, green and blue of a letter.
fn color_of(letter: u8) -> [u8; 3] {
    match letter {
        b'R' => [255, 0, 0],
        b'G' => [0, 255, 0],
        b'W' => [255, 255, 255],
        b'M' => [128, 0, 0],
        b'Y' => [128, 128, 0],
        b'O' => [255, 128, 0],
        b'C' => [204, 204, 204],
        // The ids 11 and 22.
        b'B' => [0, 0, 11],
        b'V' => [0, 0, 22],
        _ => [0, 0, 0],
    }
}

fn push_image(alloc: Global, shown: Shown, out: &mut Vec<u8>) -> Result<(), AllocError> {
    let (size, pixels) = shown;
    let header = format!(in alloc; "P6\n{size}\n255\n")?;
    out.extend_from_slice(header.as_bytes())?;
    for letter in pixels.bytes() {
        out.extend_from_slice(&color_of(letter))?;
    }
    Ok(())
}

fn edited(alloc: Global, edits: &[Edit]) -> Result<String, AllocError> {
    let mut text = String::from_str(alloc, TRIANGLE)?;
    for (old, new) in edits {
        text = text.replace(alloc, *old, new)?;
    }
    Ok(text)
}

/// Whether the edited trace is replayed and shows these images.
fn is_shown(alloc: Global, edits: &[Edit], images: &[Shown]) -> Result<bool, AllocError> {
    let text = edited(alloc, edits)?;
    let mut wanted = Vec::new(alloc);
    for shown in images {
        push_image(alloc, *shown, &mut wanted)?;
    }
    let (outcome, sink) = solo(alloc, text.as_bytes())?;
    Ok(outcome.status == 0 && sink.written() == wanted.as_slice())
}

/// A frame of one pixel.
const ONE_PIXEL: Edit = (r#""value":[4,4]"#, r#""value":[1,1]"#);

/// The red surface lets half of what is behind it through.
const HALF_RED: Edit = (
    r#"{"op":"commit","object":"m"}"#,
    r#"{"op":"set","object":"m","name":"opacity","type":"SCALAR","value":32768},
{"op":"commit","object":"m"}"#,
);

/// The red surface has the id 11.
const RED_NAMED: Edit = (
    r#"{"op":"commit","object":"s"}"#,
    r#"{"op":"set","object":"s","name":"id","type":"UINT32","value":11},
{"op":"commit","object":"s"}"#,
);

/// A green surface of the same geometry, with the id 22, behind the red one in the list.
const RED_THEN_GREEN: Edit = (
    r#"{"op":"new_array","label":"l","elem":"SURFACE","count":1,"origin":"captured","user":8,"data":["s"]}"#,
    r#"{"op":"new","label":"n","type":"material","subtype":"matte"},
{"op":"set","object":"n","name":"color","type":"SCALAR_VEC3","value":[0,65536,0]},
{"op":"commit","object":"n"},
{"op":"new","label":"z","type":"surface"},
{"op":"set","object":"z","name":"geometry","type":"GEOMETRY","value":"g"},
{"op":"set","object":"z","name":"material","type":"MATERIAL","value":"n"},
{"op":"set","object":"z","name":"id","type":"UINT32","value":22},
{"op":"commit","object":"z"},
{"op":"new_array","label":"l","elem":"SURFACE","count":2,"origin":"captured","user":8,"data":["s","z"]}"#,
);

/// The same, before it.
const GREEN_THEN_RED: Edit = (
    r#"{"op":"new_array","label":"l","elem":"SURFACE","count":1,"origin":"captured","user":8,"data":["s"]}"#,
    r#"{"op":"new","label":"n","type":"material","subtype":"matte"},
{"op":"set","object":"n","name":"color","type":"SCALAR_VEC3","value":[0,65536,0]},
{"op":"commit","object":"n"},
{"op":"new","label":"z","type":"surface"},
{"op":"set","object":"z","name":"geometry","type":"GEOMETRY","value":"g"},
{"op":"set","object":"z","name":"material","type":"MATERIAL","value":"n"},
{"op":"set","object":"z","name":"id","type":"UINT32","value":22},
{"op":"commit","object":"z"},
{"op":"new_array","label":"l","elem":"SURFACE","count":2,"origin":"captured","user":8,"data":["z","s"]}"#,
);

/// The frame has a channel of ids of objects.
const IDS_ASKED: Edit = (
    r#""value":"UFIXED8_VEC4"}"#,
    r#""value":"UFIXED8_VEC4"},
{"op":"set","object":"f","name":"channel.objectId","type":"DATA_TYPE","value":"UINT32"}"#,
);

/// That channel is mapped after the colours.
const IDS_MAPPED: Edit = (
    r#""channel":"channel.color","calls":[]}"#,
    r#""channel":"channel.color","calls":[]},
{"op":"with_frame","frame":"f","channel":"channel.objectId","calls":[]}"#,
);

/// Nothing is lit from everywhere.
const DARK: Edit = (
    r#"{"op":"new","label":"r","type":"renderer","subtype":"default"}"#,
    r#"{"op":"new","label":"r","type":"renderer","subtype":"default"},
{"op":"set","object":"r","name":"ambientRadiance","type":"SCALAR","value":0},
{"op":"commit","object":"r"}"#,
);

/// The material keeps the colour of its table.
const NO_COLOR: Edit = (
    r#"{"op":"set","object":"m","name":"color","type":"SCALAR_VEC3","value":[65536,0,0]},"#,
    "",
);

/// The geometry is of spheres.
const SPHERES: Edit = (r#""subtype":"triangle""#, r#""subtype":"sphere""#);

/// The camera sees in perspective.
const PERSPECTIVE: Edit = ("orthographic", "perspective");

/// A light from one direction.
const SUN: Edit = (
    r#"{"op":"commit","object":"w"}"#,
    r#"{"op":"new","label":"d","type":"light","subtype":"directional"},
{"op":"new_array","label":"e","elem":"LIGHT","count":1,"origin":"captured","user":9,"data":["d"]},
{"op":"set","object":"w","name":"light","type":"ARRAY1D","value":"e"},
{"op":"commit","object":"w"}"#,
);

/// The frame is rendered and mapped once more.
const SHOWN_AGAIN: Edit = (
    r#""channel":"channel.color","calls":[]}"#,
    r#""channel":"channel.color","calls":[]},
{"op":"render","frame":"f"},
{"op":"ready","frame":"f","wait":true},
{"op":"with_frame","frame":"f","channel":"channel.color","calls":[]}"#,
);

/// The array of vertices has none.
const NO_VERTICES: Edit = (
    r#""count":3,"origin":"captured","user":7,"data":[-131072,-131072,0,131072,-131072,0,-131072,131072,0]"#,
    r#""count":0,"origin":"captured","user":7,"data":[]"#,
);

/// The rays run in the plane of the triangle.
const IN_THE_PLANE: Edit = (
    "[-131072,-131072,0,131072,-131072,0,-131072,131072,0]",
    "[0,-131072,0,0,131072,0,0,0,32768]",
);

/// The world has no surface.
const NO_SURFACE: Edit = (
    r#"{"op":"set","object":"w","name":"surface","type":"ARRAY1D","value":"l"},"#,
    "",
);

/// The background is orange.
const ORANGE_BEHIND: Edit = (
    r#"{"op":"new","label":"r","type":"renderer","subtype":"default"}"#,
    r#"{"op":"new","label":"r","type":"renderer","subtype":"default"},
{"op":"set","object":"r","name":"background","type":"SCALAR_VEC3","value":[65536,32768,0]},
{"op":"commit","object":"r"}"#,
);

/// The frame has every channel of ids.
const ALL_IDS_ASKED: Edit = (
    r#""value":"UFIXED8_VEC4"}"#,
    r#""value":"UFIXED8_VEC4"},
{"op":"set","object":"f","name":"channel.primitiveId","type":"DATA_TYPE","value":"UINT32"},
{"op":"set","object":"f","name":"channel.objectId","type":"DATA_TYPE","value":"UINT32"},
{"op":"set","object":"f","name":"channel.instanceId","type":"DATA_TYPE","value":"UINT32"}"#,
);

/// They are mapped after the colours.
const ALL_IDS_MAPPED: Edit = (
    r#""channel":"channel.color","calls":[]}"#,
    r#""channel":"channel.color","calls":[]},
{"op":"with_frame","frame":"f","channel":"channel.primitiveId","calls":[]},
{"op":"with_frame","frame":"f","channel":"channel.objectId","calls":[]},
{"op":"with_frame","frame":"f","channel":"channel.instanceId","calls":[]}"#,
);

/// The second version of the format.
const VERSION_TWO: Edit = (r#""trace":1"#, r#""trace":2"#);

/// No array is made of the vertices.
const NO_ARRAY: Edit = (
    r#"{"op":"new_array","label":"p","elem":"SCALAR_VEC3","count":3,"origin":"captured","user":7,"data":[-131072,-131072,0,131072,-131072,0,-131072,131072,0]},"#,
    "",
);

/// They are written into the loan of a parameter.
const PARAMETER_ARRAY: Edit = (
    r#"{"op":"set","object":"g","name":"vertex.position","type":"ARRAY1D","value":"p"}"#,
    r#"{"op":"with_param","object":"g","name":"vertex.position","elem":"SCALAR_VEC3","count":3,"write":[[0,[-131072,-131072,0]],[1,[131072,-131072,0]],[2,[-131072,131072,0]]],"calls":[]}"#,
);

/// A lamp stands before the triangle.
const LAMP: Edit = (
    r#"{"op":"commit","object":"w"}"#,
    r#"{"op":"new","label":"d","type":"light","subtype":"point"},
{"op":"set","object":"d","name":"position","type":"SCALAR_VEC3","value":[0,0,131072]},
{"op":"set","object":"d","name":"intensity","type":"SCALAR","value":131072},
{"op":"commit","object":"d"},
{"op":"new_array","label":"e","elem":"LIGHT","count":1,"origin":"captured","user":9,"data":["d"]},
{"op":"set","object":"w","name":"light","type":"ARRAY1D","value":"e"},
{"op":"commit","object":"w"}"#,
);

/// It is twice as bright.
const BRIGHT_LAMP: Edit = (
    r#"{"op":"commit","object":"w"}"#,
    r#"{"op":"new","label":"d","type":"light","subtype":"point"},
{"op":"set","object":"d","name":"position","type":"SCALAR_VEC3","value":[0,0,131072]},
{"op":"set","object":"d","name":"intensity","type":"SCALAR","value":262144},
{"op":"commit","object":"d"},
{"op":"new_array","label":"e","elem":"LIGHT","count":1,"origin":"captured","user":9,"data":["d"]},
{"op":"set","object":"w","name":"light","type":"ARRAY1D","value":"e"},
{"op":"commit","object":"w"}"#,
);

/// The material becomes green while the frame is in flight.
const GREEN_IN_FLIGHT: Edit = (
    r#"{"op":"ready","frame":"f","wait":true}"#,
    r#"{"op":"set","object":"m","name":"color","type":"SCALAR_VEC3","value":[0,65536,0]},
{"op":"commit","object":"m"},
{"op":"ready","frame":"f","wait":true}"#,
);

/// The frame lets go of all, and the application too, while the frame is in flight.
const RELEASED_IN_FLIGHT: Edit = (
    r#"{"op":"ready","frame":"f","wait":true}"#,
    r#"{"op":"unset_all","object":"f"},
{"op":"commit","object":"f"},
{"op":"release","object":"p"},
{"op":"release","object":"g"},
{"op":"release","object":"m"},
{"op":"release","object":"s"},
{"op":"release","object":"l"},
{"op":"release","object":"w"},
{"op":"release","object":"c"},
{"op":"release","object":"r"},
{"op":"ready","frame":"f","wait":true}"#,
);

/// Green is set, shown, committed, and shown again.
const GREEN_BY_AND_BY: Edit = (
    r#""channel":"channel.color","calls":[]}"#,
    r#""channel":"channel.color","calls":[]},
{"op":"set","object":"m","name":"color","type":"SCALAR_VEC3","value":[0,65536,0]},
{"op":"render","frame":"f"},
{"op":"ready","frame":"f","wait":true},
{"op":"with_frame","frame":"f","channel":"channel.color","calls":[]},
{"op":"commit","object":"m"},
{"op":"render","frame":"f"},
{"op":"ready","frame":"f","wait":true},
{"op":"with_frame","frame":"f","channel":"channel.color","calls":[]}"#,
);

/// The first vertex is moved while the frame is in flight.
const WRITTEN_IN_FLIGHT: Edit = (
    r#"{"op":"ready","frame":"f","wait":true}"#,
    r#"{"op":"with_array","array":"p","calls":[],"write":[[0,[0,0,0]]]},
{"op":"ready","frame":"f","wait":true}"#,
);

/// A centre four units of 1/65536 to the right.
const SMALL_BALL_AT_4: Edit = (
    r#""count":3,"origin":"captured","user":7,"data":[-131072,-131072,0,131072,-131072,0,-131072,131072,0]"#,
    r#""count":1,"origin":"captured","user":7,"data":[4,0,0]"#,
);

/// The radius is the least one.
const SMALLEST_RADIUS: Edit = (
    r#"{"op":"commit","object":"g"}"#,
    r#"{"op":"set","object":"g","name":"radius","type":"SCALAR","value":1},
{"op":"commit","object":"g"}"#,
);

/// The camera stands at the origin.
const AT_THE_ORIGIN: Edit = (r#""value":[0,0,65536]"#, r#""value":[0,0,0]"#);

/// It sees far to each side.
const WIDE: Edit = (
    r#""name":"height","type":"SCALAR","value":262144"#,
    r#""name":"tanHalfFovy","type":"SCALAR","value":1048576"#,
);

/// A frame of two pixels.
const TWO_PIXELS: Edit = (r#""value":[4,4]"#, r#""value":[2,1]"#);

/// A centre at the origin.
const BALL_IN_THE_MIDDLE: Edit = (
    r#""count":3,"origin":"captured","user":7,"data":[-131072,-131072,0,131072,-131072,0,-131072,131072,0]"#,
    r#""count":1,"origin":"captured","user":7,"data":[0,0,0]"#,
);

/// The camera stands nearer.
const INSIDE: Edit = (r#""value":[0,0,65536]"#, r#""value":[0,0,32768]"#);

/// A camera in perspective has no height.
const NO_HEIGHT: Edit = (
    r#"{"op":"set","object":"c","name":"height","type":"SCALAR","value":262144},"#,
    "",
);

#[test]
fn what_stands_where_is_shown(rt: HostRuntime) -> Result<(), Fail> {
    assert!(rt;
        is_shown(rt.alloc(), &[], &[("4 4", "RKKKRRKKRRRKRRRR")])?,
        "triangle"
    );
    assert!(rt;
        is_shown(rt.alloc(), &[ONE_PIXEL], &[("1 1", "R")])?,
        "one pixel"
    );
    assert!(rt;
        is_shown(rt.alloc(), &[NO_VERTICES], &[("4 4", "KKKKKKKKKKKKKKKK")])?,
        "no vertices"
    );
    assert!(rt;
        is_shown(rt.alloc(), &[IN_THE_PLANE, ONE_PIXEL], &[("1 1", "K")])?,
        "ray in the plane"
    );
    assert!(rt;
        is_shown(
            rt.alloc(),
            &[
                SMALL_BALL_AT_4,
                SPHERES,
                SMALLEST_RADIUS,
                NO_COLOR,
                SUN,
                PERSPECTIVE,
                AT_THE_ORIGIN,
                WIDE,
                DARK,
                TWO_PIXELS
            ],
            &[("2 1", "KK")]
        )?,
        "sphere between points"
    );
    assert!(rt;
        is_shown(
            rt.alloc(),
            &[
                BALL_IN_THE_MIDDLE,
                SPHERES,
                NO_COLOR,
                SUN,
                PERSPECTIVE,
                INSIDE,
                NO_HEIGHT,
                DARK,
                ONE_PIXEL
            ],
            &[("1 1", "C")]
        )?,
        "sphere from its centre line"
    );
    assert!(rt;
        is_shown(
            rt.alloc(),
            &[
                NO_SURFACE,
                ORANGE_BEHIND,
                ONE_PIXEL,
                ALL_IDS_ASKED,
                ALL_IDS_MAPPED
            ],
            &[("1 1", "O"), ("1 1", "W"), ("1 1", "W"), ("1 1", "W")]
        )?,
        "background four channels"
    );
    assert!(rt;
        is_shown(
            rt.alloc(),
            &[VERSION_TWO, NO_ARRAY, PARAMETER_ARRAY],
            &[("4 4", "RKKKRRKKRRRKRRRR")]
        )?,
        "parameter array"
    );
    Ok(())
}

#[test]
fn light_and_opacity_are_shown(rt: HostRuntime) -> Result<(), Fail> {
    assert!(rt;
        is_shown(rt.alloc(), &[HALF_RED], &[("4 4", "MKKKMMKKMMMKMMMM")])?,
        "opacity half"
    );
    assert!(rt;
        is_shown(rt.alloc(), &[LAMP, DARK, ONE_PIXEL], &[("1 1", "M")])?,
        "point light"
    );
    assert!(rt;
        is_shown(rt.alloc(), &[BRIGHT_LAMP, DARK, ONE_PIXEL], &[("1 1", "R")])?,
        "point light bright"
    );
    Ok(())
}

#[test]
fn the_first_of_two_at_one_depth_is_shown(rt: HostRuntime) -> Result<(), Fail> {
    assert!(rt;
        is_shown(
            rt.alloc(),
            &[RED_NAMED, RED_THEN_GREEN, IDS_ASKED, IDS_MAPPED],
            &[("4 4", "RKKKRRKKRRRKRRRR"), ("4 4", "BWWWBBWWBBBWBBBB")]
        )?,
        "tie red first"
    );
    assert!(rt;
        is_shown(
            rt.alloc(),
            &[RED_NAMED, GREEN_THEN_RED, IDS_ASKED, IDS_MAPPED],
            &[("4 4", "GKKKGGKKGGGKGGGG"), ("4 4", "VWWWVVWWVVVWVVVV")]
        )?,
        "tie green first"
    );
    assert!(rt;
        is_shown(
            rt.alloc(),
            &[HALF_RED, RED_NAMED, RED_THEN_GREEN, IDS_ASKED, IDS_MAPPED],
            &[("4 4", "YKKKYYKKYYYKYYYY"), ("4 4", "BWWWBBWWBBBWBBBB")]
        )?,
        "opacity red over green"
    );
    assert!(rt;
        is_shown(
            rt.alloc(),
            &[HALF_RED, RED_NAMED, GREEN_THEN_RED, IDS_ASKED, IDS_MAPPED],
            &[("4 4", "GKKKGGKKGGGKGGGG"), ("4 4", "VWWWVVWWVVVWVVVV")]
        )?,
        "opacity green over red"
    );
    Ok(())
}

#[test]
fn what_was_committed_at_the_render_is_shown(rt: HostRuntime) -> Result<(), Fail> {
    assert!(rt;
        is_shown(
            rt.alloc(),
            &[GREEN_IN_FLIGHT, SHOWN_AGAIN],
            &[("4 4", "RKKKRRKKRRRKRRRR"), ("4 4", "GKKKGGKKGGGKGGGG")]
        )?,
        "commit during flight"
    );
    assert!(rt;
        is_shown(
            rt.alloc(),
            &[RELEASED_IN_FLIGHT],
            &[("4 4", "RKKKRRKKRRRKRRRR")]
        )?,
        "released in flight"
    );
    assert!(rt;
        is_shown(
            rt.alloc(),
            &[GREEN_BY_AND_BY],
            &[
                ("4 4", "RKKKRRKKRRRKRRRR"),
                ("4 4", "RKKKRRKKRRRKRRRR"),
                ("4 4", "GKKKGGKKGGGKGGGG")
            ]
        )?,
        "set is not commit"
    );
    assert!(rt;
        is_shown(
            rt.alloc(),
            &[WRITTEN_IN_FLIGHT, SHOWN_AGAIN],
            &[("4 4", "RKKKRRKKRRRKRRRR"), ("4 4", "KKKKKKKKKKKKKKKK")]
        )?,
        "write during flight"
    );
    Ok(())
}
