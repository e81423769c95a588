// Cost models at legs whose figures are known.
use cost::fare::Fare;
use cost::model::CostModel;
use cost::points::PointsThenSeconds;
use cost::seconds::Seconds;
use network::leg::Leg;

const FIRST: Leg = Leg {
    from: 0,
    to: 1,
    seconds: 300,
    points: 2,
    grade: 0,
};

const SECOND: Leg = Leg {
    from: 1,
    to: 3,
    seconds: 43_200,
    points: 99,
    grade: 3,
};

fn fare(points: u32, seconds: u32) -> Fare {
    Fare { points, seconds }
}

// Costs are added, and the smaller sum comes first; a sum past all bounds still has an answer.
#[test]
fn by_seconds(rt: HostRuntime) {
    let model = Seconds;
    let (a, b) = (model.of_leg(FIRST), model.of_leg(SECOND));
    assert_eq!(rt;
        (<Seconds as CostModel>::mark_byte(), model.zero(), a, b),
        (b'S', 0, 300, 43_200)
    );
    assert_eq!(rt;
        (model.join(a, b), model.join(model.zero(), b)),
        (43_500, 43_200)
    );
    assert_eq!(rt;
        (model.before(a, b), model.before(b, a), model.before(a, a)),
        (true, false, false)
    );
    let _ = model.join(u32::MAX, b);
}

// Points count first, and seconds only where the points are equal.
#[test]
fn by_points(rt: HostRuntime) {
    let model = PointsThenSeconds;
    let (a, b) = (model.of_leg(FIRST), model.of_leg(SECOND));
    assert_eq!(rt;
        (<PointsThenSeconds as CostModel>::mark_byte(), model.zero()),
        (b'P', fare(0, 0))
    );
    assert_eq!(rt; (a, model.join(a, b)), (fare(2, 300), fare(101, 43_500)));
    let cases = [
        (fare(1, 900), fare(2, 100), true),
        (fare(2, 100), fare(1, 900), false),
        (fare(2, 100), fare(2, 900), true),
        (fare(2, 900), fare(2, 100), false),
        (fare(2, 100), fare(2, 100), false),
    ];
    for (one, other, expected) in cases {
        assert_eq!(rt; model.before(one, other), expected);
    }
    let most = fare(u32::MAX, u32::MAX);
    let _ = model.join(most, most);
}
