// The table as it stands in the document, written out once more and read back.
use dev_types::{DataType, Name, Value};
use kind_tables::*;
use std::process::Abort;
use std::test::Fail;

/// The kind has a parameter of this name with this row, which is no array.
fn expect(
    rt: &impl Abort,
    kind: Kind,
    name: &str,
    ty: DataType,
    required: bool,
    default: Option<Value>,
) -> Result<(), Fail> {
    let row = row_of(kind, &Name::new(name).ok_or("a name")?).ok_or("a row")?;
    assert!(rt; row.ty == ty && row.elem == None, "of {name}");
    assert!(rt; row.required == required, "of {name}");
    assert!(rt; row.default == default, "of {name}");
    Ok(())
}

fn expect_required(rt: &impl Abort, kind: Kind, name: &str, ty: DataType) -> Result<(), Fail> {
    expect(rt, kind, name, ty, true, None)
}

fn expect_optional(rt: &impl Abort, kind: Kind, name: &str, ty: DataType) -> Result<(), Fail> {
    expect(rt, kind, name, ty, false, None)
}

fn expect_scalar(rt: &impl Abort, kind: Kind, name: &str, default: i32) -> Result<(), Fail> {
    expect(
        rt,
        kind,
        name,
        DataType::Scalar,
        false,
        Some(Value::Scalar(default)),
    )
}

fn expect_vector(rt: &impl Abort, kind: Kind, name: &str, default: [i32; 3]) -> Result<(), Fail> {
    expect(
        rt,
        kind,
        name,
        DataType::ScalarVec3,
        false,
        Some(Value::ScalarVec3(default)),
    )
}

/// The kind has a parameter of this name whose values are arrays with these elements.
fn expect_array(
    rt: &impl Abort,
    kind: Kind,
    name: &str,
    elem: DataType,
    required: bool,
) -> Result<(), Fail> {
    let row = row_of(kind, &Name::new(name).ok_or("a name")?).ok_or("a row")?;
    assert!(rt;
        row.ty == DataType::Array1D && row.elem == Some(elem),
        "of {name}"
    );
    assert!(rt;
        row.required == required && row.default == None,
        "of {name}"
    );
    Ok(())
}

#[test]
fn cameras_have_the_rows_of_the_table(rt: HostRuntime) -> Result<(), Fail> {
    for kind in [Kind::CameraOrthographic, Kind::CameraPerspective] {
        expect_vector(&rt, kind, "position", [0, 0, 0])?;
        expect_vector(&rt, kind, "direction", [0, 0, -65536])?;
        expect_vector(&rt, kind, "up", [0, 65536, 0])?;
        expect_scalar(&rt, kind, "aspect", 65536)?;
    }
    expect_scalar(&rt, Kind::CameraOrthographic, "height", 65536)?;
    expect_scalar(&rt, Kind::CameraPerspective, "tanHalfFovy", 37837)
}

#[test]
fn frames_and_instances_have_the_rows_of_the_table(rt: HostRuntime) -> Result<(), Fail> {
    let frame = Kind::FrameDefault;
    expect_required(&rt, frame, "world", DataType::World)?;
    expect_required(&rt, frame, "camera", DataType::Camera)?;
    expect_required(&rt, frame, "renderer", DataType::Renderer)?;
    expect_required(&rt, frame, "size", DataType::Uint32Vec2)?;
    expect_optional(&rt, frame, "channel.color", DataType::TypeName)?;
    expect_optional(&rt, frame, "channel.primitiveId", DataType::TypeName)?;
    expect_optional(&rt, frame, "channel.objectId", DataType::TypeName)?;
    expect_optional(&rt, frame, "channel.instanceId", DataType::TypeName)?;
    let instance = Kind::InstanceTransform;
    let identity = Value::ScalarMat34([65536, 0, 0, 0, 65536, 0, 0, 0, 65536, 0, 0, 0]);
    expect_required(&rt, instance, "group", DataType::Group)?;
    expect(
        &rt,
        instance,
        "transform",
        DataType::ScalarMat34,
        false,
        Some(identity),
    )?;
    expect_optional(&rt, instance, "id", DataType::Uint32)
}

#[test]
fn shapes_and_what_holds_them_have_the_rows_of_the_table(rt: HostRuntime) -> Result<(), Fail> {
    expect_array(
        &rt,
        Kind::GeometrySphere,
        "vertex.position",
        DataType::ScalarVec3,
        true,
    )?;
    expect_array(
        &rt,
        Kind::GeometrySphere,
        "vertex.radius",
        DataType::Scalar,
        false,
    )?;
    expect_scalar(&rt, Kind::GeometrySphere, "radius", 65536)?;
    expect_array(
        &rt,
        Kind::GeometryTriangle,
        "vertex.position",
        DataType::ScalarVec3,
        true,
    )?;
    expect_array(
        &rt,
        Kind::GeometryTriangle,
        "primitive.index",
        DataType::Uint32Vec3,
        false,
    )?;
    for kind in [Kind::GroupDefault, Kind::WorldDefault] {
        expect_array(&rt, kind, "surface", DataType::Surface, false)?;
        expect_array(&rt, kind, "light", DataType::Light, false)?;
    }
    expect_array(
        &rt,
        Kind::WorldDefault,
        "instance",
        DataType::Instance,
        false,
    )?;
    expect_required(&rt, Kind::SurfaceDefault, "geometry", DataType::Geometry)?;
    expect_required(&rt, Kind::SurfaceDefault, "material", DataType::Material)?;
    expect_optional(&rt, Kind::SurfaceDefault, "id", DataType::Uint32)
}

#[test]
fn lights_and_colours_have_the_rows_of_the_table(rt: HostRuntime) -> Result<(), Fail> {
    expect_vector(&rt, Kind::LightDirectional, "direction", [0, 0, -65536])?;
    expect_vector(&rt, Kind::LightDirectional, "color", [65536, 65536, 65536])?;
    expect_scalar(&rt, Kind::LightDirectional, "irradiance", 65536)?;
    expect_vector(&rt, Kind::LightPoint, "position", [0, 0, 0])?;
    expect_vector(&rt, Kind::LightPoint, "color", [65536, 65536, 65536])?;
    expect_scalar(&rt, Kind::LightPoint, "intensity", 65536)?;
    expect_vector(&rt, Kind::MaterialMatte, "color", [52429, 52429, 52429])?;
    expect_scalar(&rt, Kind::MaterialMatte, "opacity", 65536)?;
    expect_vector(&rt, Kind::RendererDefault, "background", [0, 0, 0])?;
    expect_vector(
        &rt,
        Kind::RendererDefault,
        "ambientColor",
        [65536, 65536, 65536],
    )?;
    expect_scalar(&rt, Kind::RendererDefault, "ambientRadiance", 65536)
}

#[test]
fn other_names_and_pairs_are_not_in_the_table(rt: HostRuntime) -> Result<(), Fail> {
    let radius = Name::new("radius").ok_or("a name")?;
    assert!(rt; row_of(Kind::GeometryTriangle, &radius) == None);
    assert!(rt; row_of(Kind::Array(DataType::Scalar), &radius) == None);
    let sphere = Name::new("sphere").ok_or("a name")?;
    assert!(rt; kind_of(DataType::Geometry, &sphere) == Some(Kind::GeometrySphere));
    assert!(rt; kind_of(DataType::Camera, &sphere) == None);
    assert!(rt; kind_of(DataType::Array1D, &sphere) == None);
    assert!(rt; subtypes_of(DataType::Light).len() == 2);
    assert!(rt; parameters_of(Kind::MaterialMatte).len() == 2);
    assert!(rt; rank(Kind::SurfaceDefault) < rank(Kind::Array(DataType::Surface)));
    Ok(())
}
