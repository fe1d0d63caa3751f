//! What stands round the values of features and collections.

ghost use Rattle.std.specs.Prelude.{◌≡◌, codes};

/// What stands before the coordinates of a point.
pub(crate) const POINT: &str = "{\"type\":\"Point\",\"coordinates\":";

/// What stands before the coordinates of a line.
pub(crate) const LINE: &str = "{\"type\":\"LineString\",\"coordinates\":[";

/// What stands before the properties of a feature.
pub(crate) const FEATURE: &str = "{\"type\":\"Feature\",\"properties\":{";

/// What stands between the properties of a feature and its geometry.
pub(crate) const GEOMETRY: &str = "},\"geometry\":";

/// What stands before everything else of a collection.
pub(crate) const COLLECTION: &str = "{\"type\":\"FeatureCollection\"";

/// What stands before the number of a system of coordinates.
pub(crate) const SYSTEM: &str =
    ",\"crs\":{\"type\":\"name\",\"properties\":{\"name\":\"urn:ogc:def:crs:EPSG::";

/// What stands before the features of a collection.
pub(crate) const FEATURES: &str = ",\"features\":";

/// The marks are these words.
pub fn marks_of_features()
    ensures point { POINT.now ≡ codes "{\"type\":\"Point\",\"coordinates\":" }
    ensures line { LINE.now ≡ codes "{\"type\":\"LineString\",\"coordinates\":[" }
    ensures feature { FEATURE.now ≡ codes "{\"type\":\"Feature\",\"properties\":{" }
    ensures geometry { GEOMETRY.now ≡ codes "},\"geometry\":" }
    ensures collection { COLLECTION.now ≡ codes "{\"type\":\"FeatureCollection\"" }
    ensures system { SYSTEM.now ≡ codes ",\"crs\":{\"type\":\"name\",\"properties\":{\"name\":\"urn:ogc:def:crs:EPSG::" }
    ensures features { FEATURES.now ≡ codes ",\"features\":" }
{}
